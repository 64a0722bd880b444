ghost use Rattle.std.specs.Prelude.{◌≤◌, ◌+◌, IfSome};

use crate::asking_place::{AskingPlace, asking_over, connect_to, flush, print_line};
use crate::safe_lines::SafeLines;
use crate::show_failure::ShowFailure;
use crate::tell_failure::TellFailure;
use crate::timed_control::AnswerTime;
use clap::ArgMatches;
use control::Place;
use desk_core::board_entries;
use readout::entry_json;
use std::io::{BufWriter, Read, Write};
use std::net::{Net, TcpStream};
use std::time::{Clock, Duration};
use std::{io, thread};

/// How long it takes at most until an entry is asked for that has come.
const PAUSE_MILLIS: u64 = 250;

/// Which entries of the history are printed, and how.
#[derive(Clone, Copy)]
pub struct HistoryOptions {
    /// How many of the newest entries. Without it all that are kept.
    pub last: Option<u32>,
    /// Whether those that come later are printed too.
    pub follows: bool,
    /// Whether each is an object of JSON.
    pub is_json: bool,
}

/// What a command line asks for.
pub fn options_in(matches: &ArgMatches<'_>) -> HistoryOptions {
    HistoryOptions {
        last: matches.get_one::<u32>("last"),
        follows: matches.get_flag("follow"),
        is_json: matches.get_flag("json"),
    }
}

/// How many entries a history has, and how many of them are kept.
#[derive(Clone, Copy)]
struct Length {
    entries: u32,
    kept: u32,
}

impl Length {
    /// What an answer to the line `stats` tells.
    fn read(answer: &str) -> Option<Length> {
        let (entries, rest) = answer.strip_prefix("entries ")?.split_once(" kept ")?;
        let (kept, _) = rest.split_once(' ')?;
        Some(Length {
            entries: entries.parse().ok()?,
            kept: kept.parse().ok()?,
        })
    }

    /// The place of the first entry that is printed, where no more than the last so many are wanted.
    fn first(self, last: Option<u32>) -> u32
        ensures within { result ≤ self.entries }
        ensures kept { self.entries ≤ result + self.kept }
        ensures last { IfSome last (λ most. self.entries ≤ result + most) }
    {
        let count = match last {
            Some(most) => most.min(self.kept),
            None => self.kept,
        };
        self.entries.saturating_sub(count)
    }
}

/// The command `history`. Where it follows, and its session is ended while the server lives, it goes on by another one.
pub fn run_history<'a, R>(
    rt: &R,
    place: Place<'a>,
    timeout: Duration,
    options: HistoryOptions,
) -> Result<(), ShowFailure<'a>>
where
    R: Print + Clock + AllocGlobal + Net<Stream = TcpStream>,
{
    let Ok(output) = BufWriter::new(rt.alloc(), io::writer(rt)) else {
        return Err(ShowFailure::Told(TellFailure::OutOfMemory));
    };
    let mut output = SafeLines::new(rt.alloc(), output);
    show_by_sessions(rt, place, timeout, options, &mut output)
}

/// Prints entries, by one session after the other.
fn show_by_sessions<'a, R, O: Write>(
    rt: &R,
    place: Place<'a>,
    timeout: Duration,
    options: HistoryOptions,
    output: &mut O,
) -> Result<(), ShowFailure<'a>>
where
    R: Clock + AllocGlobal + Net<Stream = TcpStream>,
{
    let mut next = None;
    for _ in 0..u64::MAX {
        let shown = show_by_session(rt, place, timeout, options, output, &mut next);
        if !options.follows || next.is_none() {
            return shown;
        }
        match shown {
            Err(ShowFailure::Ended) => pause(rt),
            Err(ShowFailure::Told(TellFailure::Connect(..))) => return Ok(()),
            shown => return shown,
        }
    }
    Ok(())
}

/// Prints entries by one session, from this place on, or, where there is none yet, those that are kept. The place is moved behind those
/// that are printed.
fn show_by_session<'a, R, O: Write>(
    rt: &R,
    place: Place<'a>,
    timeout: Duration,
    options: HistoryOptions,
    output: &mut O,
    next: &mut Option<u32>,
) -> Result<(), ShowFailure<'a>>
where
    R: Clock + AllocGlobal + Net<Stream = TcpStream>,
{
    let alloc = rt.alloc();
    let client = connect_to(rt, place, timeout)?;
    let time = AnswerTime::new(timeout);
    let mut asked = asking_over(rt, alloc, place, &client, &time)?;
    show_from(rt, &mut asked, output, options, next)
}

/// The same, by a session that is there.
fn show_from<'a, C: Clock, R: Read + Drop, W: Write + Drop, O: Write>(
    clock: &C,
    asked: &mut AskingPlace<'a, R, W>,
    output: &mut O,
    options: HistoryOptions,
    next: &mut Option<u32>,
) -> Result<(), ShowFailure<'a>> {
    let mut first = match *next {
        Some(first) => first,
        None => show_kept(asked, output, options)?,
    };
    *next = Some(first);
    if !options.follows {
        return Ok(());
    }
    let followed = follow(clock, asked, output, options.is_json, &mut first);
    *next = Some(first);
    followed
}

fn pause<C: Clock>(clock: &C) {
    thread::sleep(clock, Duration::from_millis(PAUSE_MILLIS));
}

/// Prints the entries that are kept, and tells the place of the next one.
pub fn show_kept<'a, R: Read + Drop, W: Write + Drop, O: Write>(
    asked: &mut AskingPlace<'a, R, W>,
    output: &mut O,
    options: HistoryOptions,
) -> Result<u32, ShowFailure<'a>> {
    let stats = asked.ask("stats")?;
    let Some(length) = Length::read(&stats) else {
        return Err(asked.unexpected(stats));
    };
    let mut next = length.first(options.last);
    show_entries(asked, output, options.is_json, &mut next, length.entries)?;
    Ok(next)
}

/// Prints the entries that come from this place on, until the session ends, and moves the place behind them.
fn follow<'a, C: Clock, R: Read + Drop, W: Write + Drop, O: Write>(
    clock: &C,
    asked: &mut AskingPlace<'a, R, W>,
    output: &mut O,
    is_json: bool,
    next: &mut u32,
) -> Result<(), ShowFailure<'a>> {
    for _ in 0..u64::MAX {
        show_new(asked, output, is_json, next)?;
        pause(clock);
    }
    Ok(())
}

/// Prints the entries that have come, whose first would have this place, which is moved behind each that is printed. A history that
/// has fewer is another one, and is printed from its beginning.
pub fn show_new<'a, R: Read + Drop, W: Write + Drop, O: Write>(
    asked: &mut AskingPlace<'a, R, W>,
    output: &mut O,
    is_json: bool,
    next: &mut u32,
) -> Result<(), ShowFailure<'a>> {
    let board = asked.ask("board")?;
    let Ok(word) = board.parse() else {
        return Err(asked.unexpected(board));
    };
    let entries = board_entries(word);
    if entries < *next {
        *next = 0;
    }
    show_entries(asked, output, is_json, next, entries)
}

/// Prints the entries from this place on below another one, and all that is printed is seen then.
fn show_entries<'a, R: Read + Drop, W: Write + Drop, O: Write>(
    asked: &mut AskingPlace<'a, R, W>,
    output: &mut O,
    is_json: bool,
    next: &mut u32,
    end: u32,
) -> Result<(), ShowFailure<'a>> {
    let shown = show_each(asked, output, is_json, next, end);
    flush(output)?;
    shown
}

/// Prints the entries from this place on below another one, as far as they are kept. The place is moved behind each.
fn show_each<'a, R: Read + Drop, W: Write + Drop, O: Write>(
    asked: &mut AskingPlace<'a, R, W>,
    output: &mut O,
    is_json: bool,
    next: &mut u32,
    end: u32,
) -> Result<(), ShowFailure<'a>> {
    for place in *next..end {
        show_entry(asked, output, is_json, place)?;
        *next = place + 1;
    }
    Ok(())
}

/// Prints the entry of this place, unless it is forgotten.
fn show_entry<'a, R: Read + Drop, W: Write + Drop, O: Write>(
    asked: &mut AskingPlace<'a, R, W>,
    output: &mut O,
    is_json: bool,
    place: u32,
) -> Result<(), ShowFailure<'a>> {
    let answer = ask_entry(asked, place)?;
    if answer.as_str() == "forgotten" {
        return Ok(());
    }
    match entry_json(asked.alloc(), &answer)? {
        Some(json) => print_line(output, if is_json { json } else { answer }),
        None => Err(asked.unexpected(answer)),
    }
}

/// The answer to the question for the entry of this place.
fn ask_entry<'a, R: Read + Drop, W: Write + Drop>(
    asked: &mut AskingPlace<'a, R, W>,
    place: u32,
) -> Result<String, ShowFailure<'a>> {
    let line = format!(in asked.alloc(); "entry {place}")?;
    asked.ask(&line)
}
