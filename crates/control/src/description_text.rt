//! The text of how a service stands.

ghost use Rattle.std.specs.Prelude.{◌≡◌, ◌++◌, codes, OnOk, IfOk, string_bytes};
ghost use Rattle.control.specs.Text.{description_text, entries_text, number_text, time_text};

use crate::description::Description;
use crate::entry_text::push_number;
use crate::reasons::reason_text;
use chronicle::TimeText;
use desk_core::Catalogue;
use std::alloc::{AllocError, Global};

/// How a service stands.
pub(crate) fn description_text(
    alloc: Global,
    catalogue: &Catalogue,
    description: &Description,
) -> Result<String, AllocError>
    ensures { IfOk result (λ text. string_bytes text
        ≡ description_text catalogue.now description.now) }
{
    let mut text = String::new(alloc);
    push_description(alloc, &mut text, catalogue, description)?;
    Ok(text)
}

/// Adds how a service stands.
fn push_description(
    alloc: Global,
    text: &mut String,
    catalogue: &Catalogue,
    description: &Description,
) -> Result<(), AllocError>
    ensures { OnOk result (string_bytes text.new
        ≡ string_bytes text.old ++ description_text catalogue.now description.now) }
{
    push_entries(alloc, text, description)?;
    text.push_str(" expected ")?;
    push_or_none(alloc, text, description.seconds)?;
    text.push_str(" ")?;
    let reason = reason_text(alloc, catalogue, description.standing.reason)?;
    text.push_str(&reason)
}

/// Adds since which entry a service has its status, and which is its newest report.
fn push_entries(
    alloc: Global,
    text: &mut String,
    description: &Description,
) -> Result<(), AllocError>
    ensures { OnOk result (string_bytes text.new
        ≡ string_bytes text.old ++ entries_text description.now) }
{
    text.push_str("since ")?;
    push_entry(alloc, text, description.standing.since, &description.since)?;
    text.push_str(" reported ")?;
    push_entry(
        alloc,
        text,
        description.standing.reported,
        &description.reported,
    )
}

/// Adds the place of an entry, and when it was made.
fn push_entry(
    alloc: Global,
    text: &mut String,
    place: Option<u32>,
    time: &Option<TimeText>,
) -> Result<(), AllocError>
    ensures { OnOk result (string_bytes text.new
        ≡ string_bytes text.old ++ (number_text place ++ codes " " ++ time_text time.now)) }
{
    push_or_none(alloc, text, place)?;
    text.push_str(" ")?;
    push_time(text, time)
}

/// Adds a number, or `-` where there is none.
fn push_or_none(alloc: Global, text: &mut String, number: Option<u32>) -> Result<(), AllocError>
    ensures { OnOk result (string_bytes text.new ≡ string_bytes text.old ++ number_text number) }
{
    match number {
        Some(number) => push_number(alloc, text, number),
        None => text.push_str("-"),
    }
}

/// Adds a time, or `-` where it is not known.
fn push_time(text: &mut String, time: &Option<TimeText>) -> Result<(), AllocError>
    ensures { OnOk result (string_bytes text.new ≡ string_bytes text.old ++ time_text time.now) }
{
    match time {
        Some(time) => text.push_str(time.as_str()),
        None => text.push_str("-"),
    }
}
