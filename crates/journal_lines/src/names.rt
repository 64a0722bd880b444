//! The names of a file, and whether its entries have all of theirs there.

ghost use Rattle.std.specs.Prelude.{◌≡◌, ◌+◌, ◌<◌, ◌≤◌, ◌↔◌, ℕ, All, IsTrue, IfOk, IfSome, IfNone, IsErrOf, length};
ghost use Rattle.record_log.specs.Log.{texts};
ghost use Rattle.journal_lines.specs.Journal.{IsNamed};
ghost use Rattle.journal_lines.specs.declared.unreadable.Unreadable.TheVariants.{Record};

use crate::unreadable::Unreadable;
use desk_core::{Call, Catalogue, CatalogueFault, Slot};
use entry_record::Stored;
use std::alloc::Global;

/// The catalogue of the names in a preface, which are the records behind its first one.
pub(crate) fn catalogue_of(alloc: Global, names: &[Vec<u8>]) -> Result<Catalogue, Unreadable>
    ensures names { IfOk result (λ catalogue. catalogue ≡ texts names.now) }
    ensures inside { (n : ℕ) → IsErrOf result (Record n) → n ≤ length names.now }
{
    let mut texts = Vec::new(alloc);
    for number in 0..names.len() {
        match str::from_utf8(&names[number]) {
            Ok(name) => texts.push(String::from_str(alloc, name)?)?,
            Err(_) => return Err(Unreadable::Record(number + 1)),
        }
    }
    match Catalogue::new(alloc, texts) {
        Ok(catalogue) => Ok(catalogue),
        Err(CatalogueFault::NoMemory) => Err(Unreadable::Memory),
        Err(_) => Err(Unreadable::Record(0)),
    }
}

/// The first of these entries whose change is of a slot without a name, where there are so many names.
pub(crate) fn first_unnamed(names: usize, stored: &[Stored]) -> Option<usize>
    requires { names ≤ 16 }
    ensures none { IfNone result (All (λ one. IsNamed names one.entry.call) stored.now) }
    ensures inside { IfSome result (λ n. n < length stored.now) }
{
    for number in 0..stored.len() {
        if !is_named(names, &stored[number].entry.call) {
            return Some(number);
        }
    }
    None
}

/// Whether each slot that a change is of has one of so many names.
fn is_named(names: usize, call: &Call) -> bool
    requires { names ≤ 16 }
    ensures { IsTrue result ↔ IsNamed names call.now }
{
    match call {
        Call::Register(slot, rule) => {
            is_below(names, *slot) && u32::from(rule.relied_on()) < 1 << names
        }
        Call::Retire(slot) | Call::Observe(slot, _) | Call::Set(slot, _) => is_below(names, *slot),
        Call::Shutdown | Call::Resume => true,
    }
}

fn is_below(names: usize, slot: Slot) -> bool
    ensures { IsTrue result ↔ (slot < names) }
{
    usize::from(slot.number()) < names
}
