ghost use Rattle.std.specs.Prelude.{◌≡◌, ◌+◌, ◌<◌, ◌≤◌, ◌∷◌, ◌++◌, [], ℕ, All, length, drop, IfOk, OnOk, IsErrOf};
ghost use Rattle.record_log.specs.Log.{texts};
ghost use Rattle.journal_store.specs.Preface.{HasNoTitle, IsCutShort, IsFront, new_of};
ghost use Rattle.journal_store.specs.Read.{AreFound, AreRead, HasTooFew, IsNoEntry};
ghost use Rattle.journal_store.specs.declared.preface_fault.PrefaceFault.{PrefaceFault as Fault};
ghost use Rattle.journal_store.specs.declared.preface_fault.PrefaceFault.TheVariants as prefaces;
ghost use Rattle.journal_store.specs.declared.record_fault.RecordFault.TheVariants.{NotAnEntry, Preface as NotAPreface, TooFew};

use crate::preface::{Preface, read_preface};
use crate::record_fault::RecordFault;
use entry_record::Stored;
use std::alloc::{AllocError, Global};

/// The entries of these records.
pub fn read_records(alloc: Global, found: &[Vec<u8>]) -> Result<Vec<Stored>, RecordFault>
    ensures read { IfOk result (λ stored. AreRead (texts found.now) stored.items) }
    ensures short { IfOk result (λ stored. All (λ bytes. length bytes.items < 256) found.now) }
    ensures fault { (n : ℕ) → IsErrOf result (NotAnEntry n) → IsNoEntry (texts found.now) n }
    ensures no_other { (fault : Fault) → IsErrOf result (NotAPreface fault) → ⊥ }
    ensures no_few { IsErrOf result TooFew → ⊥ }
{
    let mut stored = Vec::new(alloc);
    for number in 0..found.len() {
        match Stored::read(&found[number]) {
            None => return Err(RecordFault::NotAnEntry(number)),
            // The check moves no whole one here.
            Some(Stored { entry, micros, who }) => keep(
                &mut stored,
                Stored { entry, micros, who },
            )?,
        }
    }
    Ok(stored)
}

/// The preface and the entries of what was found in a file. Where nothing was, they are those of a new file with the names of the one that
/// is given.
pub fn read_found(
    alloc: Global,
    found: &[Vec<u8>],
    preface: Preface,
) -> Result<(Preface, Vec<Stored>), RecordFault>
    ensures read { IfOk result (λ read. AreFound read.0 (texts found.now) read.1.items) }
    ensures short { IfOk result (λ read. All (λ bytes. length bytes.items < 256) found.now) }
    ensures new { found.now ≡ [] → IfOk result (λ read. read.0 ≡ new_of preface.names) }
    ensures fits { IfOk result (λ read. IsFront read.0) }
    ensures fault { (n : ℕ) → IsErrOf result (NotAnEntry n) → IsNoEntry (texts found.now) n }
    ensures none { IsErrOf result (NotAPreface prefaces.NoPreface) → HasNoTitle (texts found.now) }
    ensures cut_short { IsErrOf result (NotAPreface prefaces.CutShort)
        → IsCutShort (texts found.now) }
    ensures enough { IfOk result (λ read. read.0.condensed ≤ length read.1.items) }
    ensures too_few { IsErrOf result TooFew → HasTooFew (texts found.now) }
{
    if found.is_empty() {
        return Ok((preface.renewed(), Vec::new(alloc)));
    }
    match read_preface(alloc, found) {
        Ok((preface, taken)) => {
            let stored = read_behind(alloc, found, taken)?;
            if (stored.len() as u64) < u64::from(preface.condensed()) {
                return Err(RecordFault::TooFew);
            }
            Ok((preface, stored))
        }
        Err(fault) => Err(fault.into()),
    }
}

/// The entries behind so many records.
pub(crate) fn read_behind(
    alloc: Global,
    found: &[Vec<u8>],
    taken: usize,
) -> Result<Vec<Stored>, RecordFault>
    requires { taken ≤ length found.now }
    ensures read { IfOk result (λ stored. AreRead (texts (drop taken found.now)) stored.items) }
    ensures short { IfOk result (λ stored. All (λ bytes. length bytes.items < 256)
        (drop taken found.now)) }
    ensures many { IfOk result (λ stored. taken + length stored.items ≡ length found.now) }
    ensures fault { (n : ℕ) → IsErrOf result (NotAnEntry n) → IsNoEntry (texts found.now) n }
    ensures no_other { (fault : Fault) → IsErrOf result (NotAPreface fault) → ⊥ }
    ensures no_few { IsErrOf result TooFew → ⊥ }
{
    match read_records(alloc, &found[taken..]) {
        Ok(stored) => Ok(stored),
        Err(fault) => match fault {
            RecordFault::NotAnEntry(number) => Err(RecordFault::NotAnEntry(taken + number)),
            RecordFault::Memory | RecordFault::Preface(_) | RecordFault::TooFew => {
                Err(RecordFault::Memory)
            }
        },
    }
}

/// Puts an item behind those of a list.
fn keep<T: Drop>(list: &mut Vec<T>, item: T) -> Result<(), AllocError>
    ensures { OnOk result (list.new.items ≡ list.old.items ++ item ∷ []) }
{
    list.push(item)?;
    Ok(())
}
