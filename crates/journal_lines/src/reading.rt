ghost use Rattle.std.specs.Prelude.{◌≡◌, ◌+◌, ◌<◌, ◌≤◌, ◌^◌, ◌↔◌, [], ℕ, All, IsTrue, IfOk, IfSome, IfNone, IsErrOf, drop, length};
ghost use Rattle.record_log.specs.Log.{StandsFor, texts};
ghost use Rattle.journal_store.specs.Preface.{BeginsWith};
ghost use Rattle.journal_store.specs.Read.{AreFound, AreRead};
ghost use Rattle.journal_lines.specs.Damage.{IsFaultAt};
ghost use Rattle.journal_lines.specs.Journal.{IsJournalOf, IsNamed};
ghost use Rattle.journal_lines.specs.declared.printing_fault.PrintingFault.TheVariants.{Damaged};
ghost use Rattle.journal_lines.specs.declared.unreadable.Unreadable.TheVariants.{Record};

use crate::journal::Journal;
use crate::names::{catalogue_of, first_unnamed};
use crate::place::place_of;
use crate::printing_fault::PrintingFault;
use crate::unreadable::Unreadable;
use entry_record::Stored;
use journal_store::{Preface, PrefaceFault, RecordFault, read_preface, read_records};
use record_log::{ReadError, read_entries};
use std::alloc::Global;

/// The journal of a file with these bytes. There is none where the file has no entry.
pub(crate) fn read_journal(alloc: Global, file: &[u8]) -> Result<Option<Journal>, PrintingFault>
    ensures none { IfOk result (λ journal. IfNone journal (StandsFor file.now [])) }
    ensures some { IfOk result (λ journal. IfSome journal (λ journal.
        IsJournalOf file.now journal.preface journal.stored.items)) }
    ensures damaged { (at : ℕ) → IsErrOf result (Damaged at) → IsFaultAt file.now at }
{
    let (found, end) = match read_entries(alloc, file) {
        Ok(read) => read,
        Err(ReadError::Damaged(at)) => return Err(PrintingFault::Damaged(at)),
        Err(ReadError::Memory) => return Err(PrintingFault::Memory),
    };
    if found.is_empty() {
        return Ok(None);
    }
    match journal_of(alloc, &found) {
        Ok(journal) => Ok(Some(journal)),
        Err(Unreadable::Memory) => Err(PrintingFault::Memory),
        Err(Unreadable::Record(number)) => Err(PrintingFault::Damaged(place_of(
            &found, number, end,
        ))),
    }
}

/// The journal of these records of a file.
fn journal_of(alloc: Global, found: &[Vec<u8>]) -> Result<Journal, Unreadable>
    requires some { 0 < length found.now }
    ensures found { IfOk result (λ journal.
        AreFound journal.preface (texts found.now) journal.stored.items) }
    ensures condensed { IfOk result (λ journal.
        journal.preface.condensed ≤ length journal.stored.items) }
    ensures named { IfOk result (λ journal. All
        (λ one. IsNamed (length journal.preface.names) one.entry.call) journal.stored.items) }
    ensures inside { (n : ℕ) → IsErrOf result (Record n) → n < length found.now }
{
    let (preface, taken) = preface_in(alloc, found)?;
    let catalogue = catalogue_of(alloc, preface.names())?;
    let stored = entries_behind(alloc, found, taken)?;
    if !is_counted(&preface, stored.len()) {
        return Err(Unreadable::Record(0));
    }
    if let Some(number) = first_unnamed(catalogue.len(), &stored) {
        return Err(Unreadable::Record(taken + number));
    }
    Ok(Journal {
        preface,
        catalogue,
        stored,
    })
}

/// The preface at the front of these records, and how many it takes.
fn preface_in(alloc: Global, found: &[Vec<u8>]) -> Result<(Preface, usize), Unreadable>
    ensures read { IfOk result (λ read. BeginsWith read.0 (texts found.now) read.1) }
    ensures front { (n : ℕ) → IsErrOf result (Record n) → n ≡ 0 }
{
    match read_preface(alloc, found) {
        Ok(read) => Ok(read),
        Err(PrefaceFault::Memory) => Err(Unreadable::Memory),
        Err(_) => Err(Unreadable::Record(0)),
    }
}

/// The entries behind so many records.
fn entries_behind(alloc: Global, found: &[Vec<u8>], taken: usize) -> Result<Vec<Stored>, Unreadable>
    requires { taken ≤ length found.now }
    ensures read { IfOk result (λ stored. AreRead (texts (drop taken found.now)) stored.items) }
    ensures inside { (n : ℕ) → IsErrOf result (Record n) → n < length found.now }
{
    match read_records(alloc, &found[taken..]) {
        Ok(stored) => Ok(stored),
        Err(RecordFault::NotAnEntry(number)) => Err(Unreadable::Record(taken + number)),
        Err(_) => Err(Unreadable::Memory),
    }
}

/// Whether the numbers of a preface fit so many entries: those that stand for older ones are among them, and the history has no more
/// than a registry may have.
fn is_counted(preface: &Preface, entries: usize) -> bool
    ensures { IsTrue result ↔ ((preface.now.condensed ≤ entries)
        × (preface.now.base + entries < 2 ^ 32)) }
{
    let most = u64::from(u32::MAX);
    preface.condensed() as usize <= entries
        && preface.base() <= most
        && entries as u64 <= most - preface.base()
}
