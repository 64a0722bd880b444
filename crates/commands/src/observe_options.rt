ghost use Rattle.std.specs.Prelude.{◌≤◌, IfSome};

use crate::no_place::why_no_place;
use clap::ArgMatches;
use control::Place;
use observing::{Target, TargetFault, Terms};
use std::alloc::{AllocError, Global};
use std::fmt;

/// The most seconds of an option: a day.
const MAX_SECONDS: u32 = 86_400;

/// What the command `observe` is told, beside its targets.
#[derive(Clone, Copy)]
pub struct ObserveOptions<'a> {
    /// Where its reports are told.
    pub place: Place<'a>,
    pub terms: Terms,
    /// Whether each target is looked at once.
    pub is_once: bool,
    /// Whether each look is printed.
    pub is_verbose: bool,
}

/// Why a command line of `observe` is refused, where each of its options by itself is one.
#[derive(Clone, Copy)]
pub enum BadObserve<'a> {
    /// The text is no place of a server.
    Place(&'a str),
    /// The text is no number of seconds.
    Every(&'a str),
    Timeout(&'a str),
    /// A look could take longer than the time to the next.
    Terms { timeout: &'a str, every: &'a str },
    Target(&'a str, TargetFault),
}

impl fmt::Display for BadObserve<'_> {
    fn fmt<W: fmt::Write>(&self, f: &mut fmt::Formatter<W>) -> fmt::Result {
        match *self {
            BadObserve::Place(text) => {
                let why = why_no_place(text);
                write!(f, "invalid value '{text}' for '--control <PLACE>': {why}")
            }
            BadObserve::Every(text) => write!(
                f,
                "invalid value '{text}' for '--every <S>': not a number of seconds from 0.001 to 86400"
            ),
            BadObserve::Timeout(text) => write!(
                f,
                "invalid value '{text}' for '--timeout <S>': not a number of seconds from 0.001 to 86400"
            ),
            BadObserve::Terms { timeout, every } => write!(
                f,
                "invalid value '{timeout}' for '--timeout <S>': not below the {every} seconds of --every"
            ),
            BadObserve::Target(text, fault) => {
                write!(f, "invalid value '{text}' for '<TARGET>...': {fault}")
            }
        }
    }
}

impl<'a> ObserveOptions<'a> {
    /// Reads what the command line has.
    pub fn read(matches: &ArgMatches<'a>) -> Result<ObserveOptions<'a>, BadObserve<'a>> {
        let control = matches.get_str("control").unwrap_or("");
        let Some(place) = Place::read(control) else {
            return Err(BadObserve::Place(control));
        };
        Ok(ObserveOptions {
            place,
            terms: terms_in(matches)?,
            is_once: matches.get_flag("once"),
            is_verbose: matches.get_flag("verbose"),
        })
    }
}

/// How often targets are looked at, and how long a look may take.
fn terms_in<'a>(matches: &ArgMatches<'a>) -> Result<Terms, BadObserve<'a>> {
    let every = matches.get_str("every").unwrap_or("");
    let timeout = matches.get_str("timeout").unwrap_or("");
    let Some(period) = millis_of(every) else {
        return Err(BadObserve::Every(every));
    };
    let Some(limit) = millis_of(timeout) else {
        return Err(BadObserve::Timeout(timeout));
    };
    match Terms::new(period, limit) {
        Some(terms) => Ok(terms),
        None => Err(BadObserve::Terms { timeout, every }),
    }
}

/// The milliseconds of a number of seconds, which may have three decimals. None where there are none, or more than those of a day.
pub fn millis_of(text: &str) -> Option<u32>
    ensures { IfSome result (λ millis. (1 ≤ millis) × (millis ≤ 86400000)) }
{
    let (whole, decimals) = text.split_once('.').unwrap_or((text, "0"));
    let seconds = whole.parse::<u32>().ok()?;
    if seconds > MAX_SECONDS {
        return None;
    }
    let millis = seconds * 1_000 + millis_of_decimals(decimals)?;
    if millis == 0 || millis > MAX_SECONDS * 1_000 {
        return None;
    }
    Some(millis)
}

/// What up to three decimals of a second come to.
fn millis_of_decimals(decimals: &str) -> Option<u32>
    ensures { IfSome result (λ millis. millis ≤ 999) }
{
    let unit = match decimals.len() {
        1 => 100,
        2 => 10,
        3 => 1,
        _ => return None,
    };
    if !decimals.bytes().all(|c| c.is_ascii_digit()) {
        return None;
    }
    let number = decimals.parse::<u16>().ok()?;
    let millis = u32::from(number) * unit;
    if millis > 999 { None } else { Some(millis) }
}

/// The targets of the command line, in their order, or the first that is none.
pub fn targets_in<'a>(
    alloc: Global,
    matches: &ArgMatches<'a>,
) -> Result<Result<Vec<Target>, BadObserve<'a>>, AllocError> {
    let texts = matches.get_strs("TARGET").unwrap_or(&[]);
    let mut targets = Vec::with_capacity(alloc, texts.len())?;
    for text in texts {
        match Target::read(alloc, text) {
            Ok(target) => targets.push(target)?,
            Err(TargetFault::OutOfMemory) => return Err(AllocError),
            Err(fault) => return Ok(Err(BadObserve::Target(text, fault))),
        }
    }
    Ok(Ok(targets))
}
