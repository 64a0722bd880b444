ghost use Rattle.std.specs.Prelude.{◌≡◌, ◌↔◌, ◌⊎◌, IfOk, IfSome, OnOk};
ghost use Rattle.std.specs.Io.KnownBytes.{Appends, Consumes};
ghost use Rattle.commands.specs.Tell.{HasTold};
ghost use Rattle.control.specs.Answer.{IsRefused};
ghost use Rattle.control.specs.Line.{IsPartOfLine, ended};

use crate::advice::advice_on;
use crate::expect::{DONE, UNMET};
use crate::safe_lines::SafeLines;
use crate::tell_failure::{TellFailure, failure_at};
use crate::timed_control::{AnswerTime, TimedControl};
use clap::ArgMatches;
use control::{
    AnswerFault, Cause, ControlClient, LINE_ROOM, LineEnd, Place, connect_within, is_refused,
    is_turned_away, read_line, tell,
};
use std::alloc::{AllocError, Global};
use std::io;
use std::io::{BufReader, ErrorKind, Read, Write};
use std::net::{Net, TcpStream};
use std::time::{Clock, Duration};

/// For an answer, where no other time is given.
const DEFAULT_SECONDS: u16 = 10;

/// What an answer of HTTP begins with.
pub(crate) const HTTP: &[u8] = b"HTTP/";

/// The place that is told, unless the text is none.
pub fn place_in<'a>(matches: &ArgMatches<'a>) -> Option<Place<'a>> {
    Place::read(matches.get_str("control")?)
}

/// How long an answer may take.
pub fn timeout_in(matches: &ArgMatches<'_>) -> Duration {
    let seconds = matches.get_one::<u16>("timeout").unwrap_or(DEFAULT_SECONDS);
    Duration::from_secs(u64::from(seconds))
}

/// The words of the line that is told, parted by a space. Without words, lines are read.
pub fn line_in(alloc: Global, matches: &ArgMatches<'_>) -> Result<Option<String>, AllocError> {
    let Some((first, others)) = matches.get_strs("WORD").unwrap_or(&[]).split_first() else {
        return Ok(None);
    };
    let mut line = String::from_str(alloc, first)?;
    for word in others {
        line.push(' ')?;
        line.push_str(word)?;
    }
    Ok(Some(line))
}

/// The command `tell` with words, which come to this line. It tells the exit status.
pub fn run_line<'a, R>(
    rt: &R,
    place: Place<'a>,
    timeout: Duration,
    line: &[u8],
) -> Result<u8, TellFailure<'a>>
where
    R: Print + Eprint + Clock + AllocGlobal + Net<Stream = TcpStream>,
    requires one_line { IsPartOfLine line.now }
    ensures one_of_two { IfOk result (λ status. (status ≡ 0) ⊎ (status ≡ 3)) }
{
    let alloc = rt.alloc();
    let client = connect_to(rt, place, timeout)?;
    let time = AnswerTime::new(timeout);
    let Ok(mut reader) = BufReader::new(alloc, TimedControl::new(rt, &client, &time)) else {
        return Err(TellFailure::OutOfMemory);
    };
    let mut writer = TimedControl::new(rt, &client, &time);
    let mut output = SafeLines::new(alloc, io::writer(rt));
    tell_line(
        rt,
        alloc,
        place,
        &mut reader,
        &mut writer,
        &mut output,
        line,
    )
}

/// The command `tell` without words. It tells the exit status.
pub fn run_input<'a, R>(rt: &R, place: Place<'a>, timeout: Duration) -> Result<u8, TellFailure<'a>>
where
    R: Input + Print + Eprint + Clock + AllocGlobal + Net<Stream = TcpStream>,
    ensures one_of_two { IfOk result (λ status. (status ≡ 0) ⊎ (status ≡ 3)) }
{
    let client = connect_to(rt, place, timeout)?;
    let Ok(mut input) = BufReader::new(rt.alloc(), rt.reader()) else {
        return Err(TellFailure::OutOfMemory);
    };
    tell_input(rt, place, timeout, &client, &mut input)
}

/// Tells each line of an input over a connection. It tells the exit status.
fn tell_input<'a, R, I: Read>(
    rt: &R,
    place: Place<'a>,
    timeout: Duration,
    client: &ControlClient,
    input: &mut I,
) -> Result<u8, TellFailure<'a>>
where
    R: Print + Eprint + Clock + AllocGlobal,
    ensures one_of_two { IfOk result (λ status. (status ≡ 0) ⊎ (status ≡ 3)) }
{
    let alloc = rt.alloc();
    let time = AnswerTime::new(timeout);
    let Ok(mut reader) = BufReader::new(alloc, TimedControl::new(rt, client, &time)) else {
        return Err(TellFailure::OutOfMemory);
    };
    let mut writer = TimedControl::new(rt, client, &time);
    let mut output = SafeLines::new(alloc, io::writer(rt));
    tell_lines(
        rt,
        alloc,
        place,
        input,
        &mut reader,
        &mut writer,
        &mut output,
    )
}

fn connect_to<'a, R: Net<Stream = TcpStream>>(
    rt: &R,
    place: Place<'a>,
    timeout: Duration,
) -> Result<ControlClient, TellFailure<'a>> {
    match connect_within(rt, place, timeout) {
        Ok(client) => Ok(client),
        Err(error) => Err(TellFailure::Connect(place, Cause::from(error))),
    }
}

/// Tells each line of an input, one after the other. It tells the greatest exit status of their answers.
pub fn tell_lines<'a, E: Eprint, I: Read, R: Read, W: Write, O: Write>(
    rt: &E,
    alloc: Global,
    place: Place<'a>,
    input: &mut I,
    reader: &mut R,
    writer: &mut W,
    output: &mut O,
) -> Result<u8, TellFailure<'a>>
    ensures told { IfOk result (HasTold (R.remaining reader.old) (R.remaining reader.new) (O.contents output.old) (O.contents output.new)) }
{
    let mut line = Vec::with_capacity(alloc, LINE_ROOM)?;
    let mut status = DONE;
    for _ in 0..u64::MAX {
        line.clear();
        let end = match read_line(input, &mut line) {
            Ok(end) => end,
            Err(error) => return Err(TellFailure::Input(Cause::from(error))),
        };
        if end == LineEnd::TooLong {
            return Err(TellFailure::InputTooLong);
        }
        if end == LineEnd::Input && line.is_empty() {
            return Ok(status);
        }
        status = status.max(tell_line(rt, alloc, place, reader, writer, output, &line)?);
    }
    Ok(status)
}

/// Tells a line, and prints its answer, if it has one. It tells the exit status.
pub fn tell_line<'a, E: Eprint, R: Read, W: Write, O: Write>(
    rt: &E,
    alloc: Global,
    place: Place<'a>,
    reader: &mut R,
    writer: &mut W,
    output: &mut O,
    line: &[u8],
) -> Result<u8, TellFailure<'a>>
    requires one_line { IsPartOfLine line.now }
    ensures told { IfOk result (HasTold (R.remaining reader.old) (R.remaining reader.new) (O.contents output.old) (O.contents output.new)) }
{
    match tell(alloc, reader, writer, line) {
        Ok(Some(answer)) => print_answer(rt, place, output, line, answer),
        Ok(None) => Ok(DONE),
        Err(AnswerFault::Write(error)) => match last_answer(alloc, reader, error.kind()) {
            Some(answer) => print_answer(rt, place, output, line, answer),
            None => Err(failure_at(place, AnswerFault::Write(error))),
        },
        Err(fault) => Err(failure_at(place, fault)),
    }
}

/// What a server that has closed the session had said before.
fn last_answer<R: Read>(alloc: Global, reader: &mut R, kind: ErrorKind) -> Option<Vec<u8>>
    ensures { IfSome result (λ line. Consumes (R.remaining reader.old) (R.remaining reader.new) (ended line.items)) }
{
    match kind {
        ErrorKind::BrokenPipe | ErrorKind::ConnectionReset => {}
        _ => return None,
    }
    let mut line = Vec::with_capacity(alloc, LINE_ROOM).ok()?;
    match read_line(reader, &mut line) {
        Ok(LineEnd::LineFeed) => Some(line),
        _ => None,
    }
}

/// Prints the answer to a line, and what more there is to say of it. It tells the exit status.
fn print_answer<'a, E: Eprint, O: Write>(
    rt: &E,
    place: Place<'a>,
    output: &mut O,
    line: &[u8],
    answer: Vec<u8>,
) -> Result<u8, TellFailure<'a>>
    ensures status { IfOk result (λ status. (status ≡ 3) ↔ IsRefused answer.items) }
    ensures one_of_two { IfOk result (λ status. (status ≡ 0) ⊎ (status ≡ 3)) }
    ensures printed { OnOk result (Appends (O.contents output.old) (O.contents output.new) (ended answer.items)) }
{
    if is_turned_away(&answer) {
        return Err(TellFailure::TurnedAway);
    }
    if answer.starts_with(HTTP) {
        return Err(TellFailure::Http(place));
    }
    let status = status_of(&answer);
    let advice = advice_on(line, &answer);
    if let Err(error) = print_line(output, answer) {
        return Err(TellFailure::Write(Cause::from(error)));
    }
    if let Some(advice) = advice {
        let _ = eprintln!(rt; "healthd: {advice}");
    }
    Ok(status)
}

fn status_of(answer: &[u8]) -> u8
    ensures refused { (result ≡ 3) ↔ IsRefused answer.now }
    ensures one_of_two { (result ≡ 0) ⊎ (result ≡ 3) }
{
    if is_refused(answer) { UNMET } else { DONE }
}

fn print_line<O: Write>(output: &mut O, mut line: Vec<u8>) -> io::Result<()>
    ensures { OnOk result (Appends (O.contents output.old) (O.contents output.new) (ended line.items)) }
{
    line.push(b'\n')?;
    output.write_all(&line)?;
    output.flush()
}
