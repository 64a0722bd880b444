ghost use Rattle.std.specs.Prelude.{◌≡◌, IfSome, IfOk, option_map};
ghost use Rattle.readout.specs.Told.{BeginsWith, mentioned, mentioned_in};

use crate::words::{first_word, known, owned, read_number};
use serde::Serialize;
use std::alloc::{AllocError, Global};

/// How many bytes a day has, as `2026-11-26`.
const DAY_LENGTH: usize = 10;

/// How many bytes a time of day has to the second, as `01:45:09`.
const SECONDS_LENGTH: usize = 8;

/// An entry of the journal, and when it was made.
#[derive(Drop, Serialize)]
pub struct Moment {
    /// The entry's place.
    pub entry: u32,
    /// A time of RFC 3339 in UTC, where it is still known.
    pub time: Option<String>,
}

/// The same in the words of an answer.
#[derive(Clone, Copy)]
pub(crate) struct Mention<'a> {
    entry: u32,
    time: Option<&'a str>,
}

/// The place and the time at the front of a text, and what stands behind them. Either may be `-`, but no time stands without a place.
pub(crate) fn read_mention(text: &str) -> Option<(Option<Mention<'_>>, &str)>
    ensures { IfSome result
        (λ read. BeginsWith text.now (option_map mentioned_in read.0) read.1.now) }
{
    let (place, rest) = first_word(text)?;
    let (time, rest) = first_word(rest)?;
    match (known(place), known(time)) {
        (Some(place), time) => {
            let entry = read_number(place)?;
            Some((Some(Mention { entry, time }), rest))
        }
        (None, Some(_)) => None,
        (None, None) => Some((None, rest)),
    }
}

/// What an answer mentions, as a value of its own.
pub(crate) fn owned_moment(
    alloc: Global,
    mention: Option<Mention<'_>>,
) -> Result<Option<Moment>, AllocError>
    ensures { IfOk result
        (λ moment. option_map mentioned moment ≡ option_map mentioned_in mention.entry) }
{
    let Some(mention) = mention else {
        return Ok(None);
    };
    Ok(Some(Moment {
        entry: mention.entry,
        time: owned(alloc, mention.time)?,
    }))
}

/// A moment for a person to read: its time to the second, or else its entry.
pub(crate) fn shown(alloc: Global, moment: &Option<Moment>) -> Result<String, AllocError> {
    let Some(moment) = moment else {
        return String::from_str(alloc, "-");
    };
    let Some(time) = &moment.time else {
        let entry = moment.entry;
        return format!(in alloc; "entry {entry}");
    };
    to_the_second(alloc, time.as_str())
}

/// A time without what is behind its seconds. A text that is no such time is left as it is.
fn to_the_second(alloc: Global, time: &str) -> Result<String, AllocError> {
    let Some((day, seconds)) = day_and_seconds(time) else {
        return String::from_str(alloc, time);
    };
    let mut text = String::from_str(alloc, day)?;
    text.push_str(" ")?;
    text.push_str(seconds)?;
    text.push_str("Z")?;
    Ok(text)
}

fn day_and_seconds(time: &str) -> Option<(&str, &str)> {
    let (day, clock) = time.strip_suffix('Z')?.split_once('T')?;
    let (seconds, _) = clock.split_once('.').unwrap_or((clock, ""));
    if day.len() != DAY_LENGTH || seconds.len() != SECONDS_LENGTH {
        return None;
    }
    Some((day, seconds))
}
