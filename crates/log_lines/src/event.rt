ghost use Rattle.std.specs.Prelude.{◌≡◌};
ghost use Rattle.log_lines.specs.Level.{level_of};

use crate::limit::Limit;
use crate::plain::{entries, fails, lines, services, word_of};
use crate::status::Status;
use crate::who::Who;
use log::Level;
use safe_text::SafeText;
use std::fmt;
use std::net::SocketAddr;

/// What a line tells. Its text has no line break, whatever the texts in it are.
#[derive(Clone, Copy)]
pub enum Event<'a> {
    /// The server serves at this address.
    Serving {
        address: SocketAddr,
        services: u32,
        entries: u32,
    },
    /// The server ended, for this reason.
    Ended(&'a str),
    /// The entry at a place changed the status of a service.
    Changed {
        name: &'a str,
        old: Status,
        new: Status,
        place: u32,
        who: Who,
        call: &'a str,
    },
    /// A service was not heard from for so many seconds, if they are known, and so many fails were made, the last of which is the
    /// entry at a place.
    Expired {
        name: &'a str,
        seconds: Option<u32>,
        fails: u32,
        place: u32,
    },
    /// A change was refused, for this reason.
    Refused {
        who: Who,
        reason: &'a str,
    },
    /// A bound is reached, or nearly.
    Limited(Limit),
    /// The journal takes no change, for this reason.
    NotWritten(&'a str),
    /// It takes changes again.
    WrittenAgain,
    /// So many lines were not written, since others of their second were.
    LeftOut(u64),
    /// So many lines were not written, since those before them were not taken.
    Dropped(u64),
    /// So many refusals were written over before they were told.
    Lost(u64),
    /// So many entries were forgotten before anything was told of them.
    Forgotten(u32),
}

impl Event<'_> {
    /// How important it is: what somebody may have to do something about is a warning.
    pub fn level(&self) -> Level
        ensures { result ≡ level_of self.now }
    {
        match self {
            Event::Serving { .. } | Event::Ended(_) | Event::WrittenAgain => Level::Info,
            Event::Changed { new, .. } => new.level(),
            _ => Level::Warn,
        }
    }
}

impl fmt::Display for Event<'_> {
    fn fmt<W: fmt::Write>(&self, f: &mut fmt::Formatter<W>) -> fmt::Result {
        match *self {
            Event::Serving {
                address,
                services,
                entries,
            } => write_serving(f, address, services, entries),
            Event::Ended(why) => write!(f, "ended: {}", SafeText(why)),
            Event::Changed {
                name,
                old,
                new,
                place,
                who,
                call,
            } => {
                let (name, call) = (word_of(name), SafeText(call));
                write!(f, "{name}: {old} -> {new}, entry {place} ({who}: {call})")
            }
            Event::Expired {
                name,
                seconds,
                fails,
                place,
            } => write_expired(f, name, seconds, fails, place),
            Event::Refused { who, reason } => {
                write!(f, "a change of {who} was refused: {}", SafeText(reason))
            }
            Event::Limited(limit) => write!(f, "{limit}"),
            Event::NotWritten(why) => write!(f, "journal not written: {}", SafeText(why)),
            Event::WrittenAgain => f.write_str("journal written again"),
            Event::LeftOut(count) => write!(f, "{} left out", lines(count)),
            Event::Dropped(count) => {
                write!(
                    f,
                    "{} dropped, since nobody took those before",
                    lines(count)
                )
            }
            Event::Forgotten(count) => {
                write!(f, "{} forgotten before being told", entries(count))
            }
            Event::Lost(1) => f.write_str("1 refusal written over before it was told"),
            Event::Lost(count) => {
                write!(f, "{count} refusals written over before they were told")
            }
        }
    }
}

fn write_serving<W: fmt::Write>(
    f: &mut fmt::Formatter<W>,
    address: SocketAddr,
    service_count: u32,
    entry_count: u32,
) -> fmt::Result {
    let services = services(service_count);
    let entries = entries(entry_count);
    write!(f, "serving on {address}, {services}, {entries}")
}

fn write_expired<W: fmt::Write>(
    f: &mut fmt::Formatter<W>,
    name: &str,
    seconds: Option<u32>,
    fail_count: u32,
    place: u32,
) -> fmt::Result {
    let name = word_of(name);
    write!(f, "{name}: not heard from")?;
    if let Some(seconds) = seconds {
        write!(f, " for {seconds} s")?;
    }
    let fails = fails(fail_count);
    write!(f, ", {fails} made, entry {place}")
}
