ghost use Rattle.std.specs.Prelude.{◌≡◌, string_bytes, map, IfOk};
ghost use Rattle.desk_core.specs.Board.{status_in};
ghost use Rattle.control.specs.NameText.{slot_word, word_of};
ghost use Rattle.control.specs.Text.{list_text, listed, listed_from, status_word};

use desk_core::{Catalogue, Slot, board_status};
use health_wire::Serving;
use std::alloc::{AllocError, Global};

/// A status as a list of all names has it.
fn status_word(status: Option<Serving>) -> &'static str
    ensures { result.now ≡ status_word status }
{
    match status {
        Some(Serving::Serving) => "serving",
        Some(Serving::NotServing) => "not_serving",
        Some(Serving::Unknown) => "unknown",
        Some(Serving::ServiceUnknown) | None => "absent",
    }
}

/// A name as lines have it.
pub(crate) fn word_of(name: &str) -> &str
    ensures { result.now ≡ word_of name.now }
{
    if name.is_empty() { "-" } else { name }
}

/// The word for the name of a slot.
pub(crate) fn slot_word(catalogue: &Catalogue, slot: Slot) -> &str
    ensures { result.now ≡ slot_word catalogue.now slot }
{
    word_of(catalogue.name(slot).unwrap_or(""))
}

fn listed(alloc: Global, name: &str, status: Option<Serving>) -> Result<String, AllocError>
    ensures { IfOk result (λ text. string_bytes text ≡ listed name.now status) }
{
    let mut text = String::from_str(alloc, word_of(name))?;
    text.push_str("=")?;
    text.push_str(status_word(status))?;
    Ok(text)
}

/// All names with the statuses that a board has of them, parted by one space.
pub(crate) fn list_text(
    alloc: Global,
    catalogue: &Catalogue,
    board: u64,
) -> Result<String, AllocError>
    ensures { IfOk result (λ text. string_bytes text ≡ list_text (status_in board) catalogue.now) }
{
    let mut words = Vec::new(alloc);
    for number in 0..catalogue.len() as u8 {
        let slot = Slot::new(number).unwrap();
        let name = catalogue.name(slot).unwrap();
        words.push(listed(alloc, name, board_status(board, slot))?)?;
    }
    words.join(alloc, " ")
}
