//! The file that takes the place of one that has grown long.

ghost use Rattle.std.specs.Prelude.{◌≡◌, ◌<◌, ◌≤◌, ℕ, List, All, length, IfSome};
ghost use Rattle.desk_core.specs.declared.entry.Entry.{Entry as JournalEntry};
ghost use Rattle.record_log.specs.Log.{blocks, texts};
ghost use Rattle.journal_store.specs.Preface.{Front};
ghost use Rattle.journal_store.specs.Record.{HoldJournal, IsFileOf, IsTextOf};

use crate::condensing::condense;
use crate::preface::{Preface, put_copies};
use crate::reading::read_behind;
use crate::records::batch_of;
use crate::text::Renewed;
use crate::witness::Witness;
use chronicle::{StoreFault, Who};
use record_log::{blocks_of, read_entries};
use std::alloc::Global;

/// What takes the place of a file with this preface and these blocks: all but the newest so many of its entries are short ones. None
/// where they are no fewer, or there is no memory.
pub(crate) fn shortened(
    alloc: Global,
    preface: &Preface,
    written: &[u8],
    newest: usize,
) -> Option<Renewed>
    ensures holds { (start : Front) (journal : List JournalEntry)
        → IsTextOf start preface.now written.now journal
        → IfSome result (λ made. IsFileOf start made.preface made.file.items journal) }
    ensures shorter { IfSome result (λ made. preface.now.base < made.preface.base) }
{
    let found = records_in(alloc, written)?;
    let shorter = shorten(alloc, preface, &found, newest)?;
    let Ok(file) = blocks_of(alloc, &shorter.records) else {
        return None;
    };
    Some(Renewed {
        preface: shorter.preface,
        file,
    })
}

/// The records of these blocks.
fn records_in(alloc: Global, written: &[u8]) -> Option<Vec<Vec<u8>>>
    ensures { IfSome result (λ found. (records : List (List ℕ)) → written.now ≡ blocks records
        → texts found.items ≡ records) }
{
    let Ok(mut file) = written.to_vec(alloc) else {
        return None;
    };
    let Ok(()) = file.push(0) else {
        return None;
    };
    match read_entries(alloc, &file) {
        Ok((found, _)) => Some(found),
        Err(_) => None,
    }
}

/// A preface and the records of a file that begins with it.
#[derive(Drop)]
struct Shorter {
    preface: Preface,
    records: Vec<Vec<u8>>,
}

/// These records with short entries in the place of all but the newest so many.
fn shorten(alloc: Global, preface: &Preface, found: &[Vec<u8>], newest: usize) -> Option<Shorter>
    ensures holds { (start : Front) (journal : List JournalEntry)
        → HoldJournal start preface.now (texts found.now) journal
        → IfSome result (λ made. HoldJournal start made.preface (texts made.records.items) journal) }
    ensures short { IfSome result (λ made.
        All (λ bytes. length bytes.items < 256) made.records.items) }
    ensures shorter { IfSome result (λ made. preface.now.base < made.preface.base) }
{
    let title = preface.names().len() + 1;
    if found.len() < title {
        return None;
    }
    let Ok(stored) = read_behind(alloc, found, title) else {
        return None;
    };
    let count = stored.len().checked_sub(newest)?;
    if (count as u64) < u64::from(preface.condensed()) {
        return None;
    }
    let condensed = condense(alloc, preface, &stored[..count])?;
    let Ok(mut records) = batch_of(alloc, &NoOne, &condensed.preface, &[], &condensed.short) else {
        return None;
    };
    let Ok(()) = put_copies(alloc, &mut records, &found[title + count..]) else {
        return None;
    };
    Some(Shorter {
        preface: condensed.preface,
        records,
    })
}

/// Of entries that stand for others: nobody asked for them.
#[derive(Drop)]
struct NoOne;

impl Witness for NoOne {
    fn witness(&self, _seat: u16) -> (u64, Who) {
        (0, Who::Setup)
    }

    fn stored(&self) {}

    fn not_stored(&self, _fault: StoreFault) {}
}
