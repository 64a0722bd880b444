ghost use Rattle.std.specs.Prelude.{◌≡◌, ◌≤◌, ◌++◌, length, IfOk, OnOk};
ghost use Rattle.desk_core.specs.Board.{entries_in, status_in};
ghost use Rattle.json.specs.Print.{quoted};
ghost use Rattle.plain.specs.Services.{separator, service_text, services_text, status_word};
ghost use Rattle.plain.specs.Slots.{texts_from};

use desk_core::{Catalogue, Slot, board_entries, board_status};
use health_wire::Serving;
use json::Writer;
use std::alloc::{AllocError, Global};

/// How long the history of a board is, and all services with their statuses on it.
pub(crate) fn services_text(
    alloc: Global,
    catalogue: &Catalogue,
    board: u64,
) -> Result<Vec<u8>, AllocError>
    ensures text { IfOk result (λ text. text.items
        ≡ services_text (entries_in board) (status_in board) catalogue.now) }
    ensures few { OnOk result (length catalogue.now ≤ 16) }
{
    let mut text = b"{\"entries\": ".to_vec(alloc)?;
    text.extend_from_slice(board_entries(board).to_string(alloc)?.as_bytes())?;
    text.extend_from_slice(b", \"services\": [")?;
    push_services(alloc, &mut text, catalogue, board)?;
    text.extend_from_slice(b"]}\n")?;
    Ok(text)
}

fn push_services(
    alloc: Global,
    text: &mut Vec<u8>,
    catalogue: &Catalogue,
    board: u64,
) -> Result<(), AllocError>
    ensures pushed { OnOk result (text.new.items
        ≡ text.old.items ++ texts_from (service_text (status_in board)) 0 catalogue.now) }
    ensures few { OnOk result (length catalogue.now ≤ 16) }
{
    for number in 0..catalogue.len() as u8 {
        let slot = Slot::new(number).unwrap();
        let name = catalogue.name(slot).unwrap();
        push_service(alloc, text, board, slot, name)?;
    }
    Ok(())
}

fn push_service(
    alloc: Global,
    text: &mut Vec<u8>,
    board: u64,
    slot: Slot,
    name: &str,
) -> Result<(), AllocError>
    ensures { OnOk result (text.new.items
        ≡ text.old.items ++ service_text (status_in board) slot name.now) }
{
    text.extend_from_slice(separator(slot))?;
    text.extend_from_slice(b"{\"name\": ")?;
    text.extend_from_slice(quoted(alloc, name)?.as_slice())?;
    text.extend_from_slice(b", \"status\": \"")?;
    text.extend_from_slice(status_word(board_status(board, slot)))?;
    text.extend_from_slice(b"\"}")
}

/// What parts a service from the one before it.
fn separator(slot: Slot) -> &'static [u8]
    ensures { result.now ≡ separator slot }
{
    if slot.number() == 0 { b"" } else { b", " }
}

/// A string of JSON.
fn quoted(alloc: Global, text: &str) -> Result<Vec<u8>, AllocError>
    ensures { IfOk result (λ string. string.items ≡ quoted text.now) }
{
    let mut writer = Writer::new(Vec::new(alloc));
    writer.string(text)?;
    Ok(writer.into_inner())
}

/// The word of a status.
fn status_word(status: Option<Serving>) -> &'static [u8]
    ensures { result.now ≡ status_word status }
{
    match status {
        Some(Serving::Serving) => b"serving",
        Some(Serving::NotServing) => b"not_serving",
        Some(Serving::Unknown) => b"unknown",
        Some(Serving::ServiceUnknown) | None => b"absent",
    }
}
