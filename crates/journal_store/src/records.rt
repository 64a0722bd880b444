ghost use Rattle.std.specs.Prelude.{◌≡◌, ◌<◌, ◌≤◌, All, length, IfOk};
ghost use Rattle.record_log.specs.Log.{texts};
ghost use Rattle.journal_store.specs.Record.{IsRecordOf, AreAdded, AreRecords};

use crate::preface::Preface;
use crate::witness::Witness;
use desk_core::Entry;
use entry_record::Stored;
use std::alloc::{AllocError, Global};

/// A record of this entry, with the time and who asks for it.
fn record_of<W: Witness>(alloc: Global, witness: &W, entry: Entry) -> Result<Vec<u8>, AllocError>
    ensures of { IfOk result (λ bytes. IsRecordOf bytes.items entry) }
    ensures short { IfOk result (λ bytes. length bytes.items < 256) }
{
    let (micros, who) = witness.witness(entry.seat);
    let stored = Stored { entry, micros, who };
    let written = stored.write();
    written.as_bytes().to_vec(alloc)
}

/// A record of each of these entries.
fn records_of<W: Witness>(
    alloc: Global,
    witness: &W,
    entries: &[Entry],
) -> Result<Vec<Vec<u8>>, AllocError>
    ensures of { IfOk result (λ batch. AreRecords (texts batch.items) entries.now) }
    ensures short { IfOk result (λ batch. All (λ bytes. length bytes.items < 256) batch.items) }
    ensures as_many { IfOk result (λ batch. length batch.items ≡ length entries.now) }
{
    let mut batch = Vec::new(alloc);
    for entry in entries {
        batch.push(record_of(alloc, witness, *entry)?)?;
    }
    Ok(batch)
}

/// What is put behind these blocks of a file for these entries: a record of each, and the preface's in front of them where there are no
/// blocks.
pub fn batch_of<W: Witness>(
    alloc: Global,
    witness: &W,
    preface: &Preface,
    written: &[u8],
    entries: &[Entry],
) -> Result<Vec<Vec<u8>>, AllocError>
    ensures added { IfOk result (λ batch.
        AreAdded preface.now written.now (texts batch.items) entries.now) }
    ensures short { IfOk result (λ batch. All (λ bytes. length bytes.items < 256) batch.items) }
    ensures some { IfOk result (λ batch. length entries.now ≤ length batch.items) }
{
    let mut records = records_of(alloc, witness, entries)?;
    if !written.is_empty() {
        return Ok(records);
    }
    let mut batch = preface.write(alloc)?;
    batch.append(&mut records)?;
    Ok(batch)
}
