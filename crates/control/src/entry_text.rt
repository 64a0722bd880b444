//! The texts of entries.

ghost use Rattle.std.specs.Prelude.{◌≡◌, ◌++◌, ◌≤◌, ℕ, decimal, OnOk, IfOk, string_bytes};
ghost use Rattle.control.specs.NameText.{slot_word};
ghost use Rattle.control.specs.EntryText.{call_text, done_text, entry_text, mask_text, note_text, rule_text, start_text, who_text};

use crate::recollection::Recollection;
use crate::words::slot_word;
use chronicle::{Note, Who};
use desk_core::{Call, Catalogue, Entry, Finding, Recall, Setting, Slot};
use probe_core::{Rule, Start};
use script::changed_text;
use std::alloc::{AllocError, Global};

/// The entry at a place, as far as it is known.
pub(crate) fn entry_text(
    alloc: Global,
    catalogue: &Catalogue,
    recollection: &Recollection,
) -> Result<String, AllocError>
    ensures { IfOk result (λ text. string_bytes text
        ≡ entry_text catalogue.now recollection.now.place recollection.now.note
        recollection.now.recall) }
{
    match &recollection.recall {
        Recall::Forgotten => String::from_str(alloc, "forgotten"),
        Recall::NoneYet => String::from_str(alloc, "none yet"),
        Recall::Kept(entry) => {
            let mut text = String::new(alloc);
            push_number(alloc, &mut text, recollection.place)?;
            text.push_str(" ")?;
            push_note(alloc, &mut text, &recollection.note)?;
            text.push_str(" ")?;
            push_done(alloc, &mut text, catalogue, entry)?;
            Ok(text)
        }
    }
}

/// Adds a number in decimal.
pub(crate) fn push_number(alloc: Global, text: &mut String, number: u32) -> Result<(), AllocError>
    ensures { OnOk result (string_bytes text.new ≡ string_bytes text.old ++ decimal number) }
{
    let digits = format!(in alloc; "{number}")?;
    text.push_str(&digits)
}

/// Adds when an entry was made and who asked for it.
pub fn push_note(alloc: Global, text: &mut String, note: &Option<Note>) -> Result<(), AllocError>
    ensures { OnOk result (string_bytes text.new ≡ string_bytes text.old ++ note_text note.now) }
{
    match note {
        None => text.push_str("- -"),
        Some(note) => {
            text.push_str(note.time.as_str())?;
            text.push_str(" ")?;
            push_who(alloc, text, note.who)
        }
    }
}

/// Adds who asked for an entry.
fn push_who(alloc: Global, text: &mut String, who: Who) -> Result<(), AllocError>
    ensures { OnOk result (string_bytes text.new ≡ string_bytes text.old ++ who_text who) }
{
    match who {
        Who::Setup => text.push_str("setup"),
        Who::Session(number) => {
            text.push_str("session ")?;
            push_number(alloc, text, number)
        }
        Who::Expiry => text.push_str("expiry"),
    }
}

/// Adds what came of an entry.
pub fn push_done(
    alloc: Global,
    text: &mut String,
    catalogue: &Catalogue,
    entry: &Entry,
) -> Result<(), AllocError>
    ensures { OnOk result (string_bytes text.new
        ≡ string_bytes text.old ++ done_text catalogue.now entry.now) }
{
    push_call(alloc, text, catalogue, &entry.call)?;
    text.push_str(": ")?;
    text.push_str(changed_text(Ok(entry.reply)))
}

/// A change, as a line that asks for it.
pub fn call_text(alloc: Global, catalogue: &Catalogue, call: &Call) -> Result<String, AllocError>
    ensures { IfOk result (λ text. string_bytes text ≡ call_text catalogue.now call.now) }
{
    let mut text = String::new(alloc);
    push_call(alloc, &mut text, catalogue, call)?;
    Ok(text)
}

/// Adds a change, as a line that asks for it.
fn push_call(
    alloc: Global,
    text: &mut String,
    catalogue: &Catalogue,
    call: &Call,
) -> Result<(), AllocError>
    ensures { OnOk result (string_bytes text.new
        ≡ string_bytes text.old ++ call_text catalogue.now call.now) }
{
    match call {
        Call::Register(slot, rule) => {
            push_named(text, catalogue, "register ", *slot)?;
            push_rule(alloc, text, catalogue, rule)
        }
        Call::Retire(slot) => push_named(text, catalogue, "retire ", *slot),
        Call::Observe(slot, Finding::Pass) => push_named(text, catalogue, "pass ", *slot),
        Call::Observe(slot, Finding::Fail) => push_named(text, catalogue, "fail ", *slot),
        Call::Set(slot, Setting::Up) => push_named(text, catalogue, "up ", *slot),
        Call::Set(slot, Setting::Down) => push_named(text, catalogue, "down ", *slot),
        Call::Shutdown => text.push_str("shutdown"),
        Call::Resume => text.push_str("resume"),
    }
}

/// Adds a text and the name of a slot.
fn push_named(
    text: &mut String,
    catalogue: &Catalogue,
    front: &str,
    slot: Slot,
) -> Result<(), AllocError>
    ensures { OnOk result (string_bytes text.new
        ≡ string_bytes text.old ++ (front.now ++ slot_word catalogue.now slot)) }
{
    text.push_str(front)?;
    text.push_str(slot_word(catalogue, slot))
}

/// Adds a rule, as a line that registers by it.
fn push_rule(
    alloc: Global,
    text: &mut String,
    catalogue: &Catalogue,
    rule: &Rule,
) -> Result<(), AllocError>
    ensures { OnOk result (string_bytes text.new
        ≡ string_bytes text.old ++ rule_text catalogue.now rule.now) }
{
    match *rule {
        Rule::Threshold(fall, rise, start) => {
            text.push_str(" threshold ")?;
            push_number(alloc, text, fall)?;
            text.push_str(" ")?;
            push_number(alloc, text, rise)?;
            text.push_str(start_text(start))
        }
        Rule::Manual => text.push_str(" manual"),
        Rule::Depends(mask) => {
            text.push_str(" depends")?;
            push_mask(text, catalogue, mask)
        }
    }
}

fn start_text(start: Start) -> &'static str
    ensures { result.now ≡ start_text start }
{
    match start {
        Start::Up => "",
        Start::Unknown => " unknown",
    }
}

/// Adds the names of the slots of a mask, each behind a space.
fn push_mask(text: &mut String, catalogue: &Catalogue, mask: u16) -> Result<(), AllocError>
    ensures { OnOk result (string_bytes text.new
        ≡ string_bytes text.old ++ mask_text catalogue.now mask 16) }
{
    for number in 0..Slot::COUNT {
        if (mask >> number) % 2 == 1 {
            push_named(text, catalogue, " ", Slot::new(number).unwrap())?;
        }
    }
    Ok(())
}
