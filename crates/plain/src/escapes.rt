ghost use Rattle.std.specs.Prelude.{◌≡◌, IfOk, option_and_then};
ghost use Rattle.desk_core.specs.Catalogue as catalogues;
ghost use Rattle.plain.specs.Escapes.{are_whole, begins_with_digits, name_of};

use desk_core::{Catalogue, Slot};
use percent_encoding::percent_decode;
use std::alloc::{AllocError, Global};

/// The slot of the service whose name stands escaped there, if the catalogue has it.
pub(crate) fn slot_of(
    alloc: Global,
    catalogue: &Catalogue,
    escaped: &[u8],
) -> Result<Option<Slot>, AllocError>
    ensures { IfOk result (λ slot. slot
        ≡ option_and_then (catalogues.slot_of catalogue.now) (name_of escaped.now)) }
{
    if !are_whole(escaped) {
        return Ok(None);
    }
    let mut name = Vec::new(alloc);
    percent_decode(escaped).append_to(&mut name)?;
    Ok(slot_named(catalogue, name.as_slice()))
}

fn are_whole(escaped: &[u8]) -> bool
    ensures { result ≡ are_whole escaped.now }
{
    for (place, c) in escaped.iter().enumerate() {
        if *c == b'%' && !begins_with_digits(&escaped[place + 1..]) {
            return false;
        }
    }
    true
}

fn begins_with_digits(text: &[u8]) -> bool
    ensures { result ≡ begins_with_digits text.now }
{
    match text {
        [high, low, ..] => high.is_ascii_hexdigit() && low.is_ascii_hexdigit(),
        _ => false,
    }
}

/// The slot of a name that may be no text.
fn slot_named(catalogue: &Catalogue, name: &[u8]) -> Option<Slot>
    ensures { result ≡ catalogues.slot_of catalogue.now name.now }
{
    for number in 0..catalogue.len() as u8 {
        let slot = Slot::new(number).unwrap();
        let listed = catalogue.name(slot).unwrap();
        if name == listed.as_bytes() {
            return Some(slot);
        }
    }
    None
}
