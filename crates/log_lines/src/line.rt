ghost use Rattle.std.specs.Prelude.{◌≡◌};
ghost use Rattle.log_lines.specs.Level.{priority_of};

use crate::event::Event;
use log::Level;
use std::fmt;

/// A line of the log, which ends in a line feed: `TIME LEVEL MESSAGE`.
#[derive(Clone, Copy)]
pub struct Line<'a> {
    /// When it was, as `2026-11-26T01:45:09.123456Z`.
    pub time: &'a str,
    pub event: Event<'a>,
}

impl fmt::Display for Line<'_> {
    fn fmt<W: fmt::Write>(&self, f: &mut fmt::Formatter<W>) -> fmt::Result {
        let Line { time, event } = *self;
        let level = event.level();
        writeln!(f, "{time} {level:<5} {event}")
    }
}

/// The same line with its priority before it, as the journal of systemd takes it: `<4>TIME WARN  MESSAGE`.
#[derive(Clone, Copy)]
pub struct JournalLine<'a>(pub Line<'a>);

impl fmt::Display for JournalLine<'_> {
    fn fmt<W: fmt::Write>(&self, f: &mut fmt::Formatter<W>) -> fmt::Result {
        let JournalLine(line) = *self;
        let priority = priority_of(line.event.level());
        write!(f, "<{priority}>{line}")
    }
}

/// The number of a level's priority (syslog(3)).
fn priority_of(level: Level) -> u8
    ensures { result ≡ priority_of level }
{
    match level {
        Level::Error => 3,
        Level::Warn => 4,
        Level::Info => 6,
        Level::Debug | Level::Trace => 7,
    }
}
