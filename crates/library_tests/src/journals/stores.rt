//! Stores over devices, and what their files have.

ghost use Rattle.std.specs.Prelude.{◌≡◌, IfOk};
ghost use Rattle.desk_core.specs.Left.{Holds};
ghost use Rattle.journal_store.specs.Record.{restored_of};

use crate::journals::histories::{Manuals, Sessions, preface};
use crate::journals::spare::Spare;
use crate::same::{holds, same};
use desk_core::Desk;
use entry_record::Stored;
use journal_store::{JournalStore, Medium, RecordFault, restore};
use probe_core::Manual;
use record_log::{Memory, RecordLog};
use std::alloc::Global;
use std::process::Abort;

pub(crate) type Store = JournalStore<Spare, Sessions>;

/// How many of the newest entries stay in a file that is written anew.
pub(crate) const NEWEST: usize = 5;

/// A store over a device, and the entries that are found there.
fn store_over<M: Medium>(
    rt: &impl Abort,
    alloc: Global,
    medium: M,
    device: M::Device,
) -> Result<(JournalStore<M, Sessions>, Vec<Stored>), RecordFault>
    ensures stands { IfOk result (λ made. made.0.kept.journal ≡ restored_of made.1.items) }
    ensures holds { IfOk result (λ made.
        Holds made.0.kept.left (restored_of made.1.items)) }
{
    let mut log = RecordLog::new(device);
    let found = log.open(alloc).expect(rt, "a file");
    let preface = preface(rt, alloc);
    JournalStore::over(alloc, medium, Sessions, log, &found, preface)
}

/// The same over a file in memory, whose device stops after so many calls.
pub(crate) fn store_in(
    rt: &impl Abort,
    alloc: Global,
    file: &[u8],
    calls: usize,
    medium: Spare,
) -> Result<(Store, Vec<Stored>), RecordFault>
    ensures stands { IfOk result (λ made. made.0.kept.journal ≡ restored_of made.1.items) }
    ensures holds { IfOk result (λ made.
        Holds made.0.kept.left (restored_of made.1.items)) }
{
    let file = file.to_vec(alloc).expect(rt, "memory");
    let mut device = Memory::new(alloc, file).expect(rt, "memory");
    device.stop_after(calls);
    store_over(rt, alloc, medium, device)
}

/// The desk that such a file makes, the entries that are found there, for how many entries of the history others stand, and how many those
/// are.
fn desk_in(
    rt: &impl Abort,
    alloc: Global,
    file: &[u8],
    calls: usize,
    medium: Spare,
) -> (Desk<Manual, Store>, Vec<Stored>, (usize, usize)) {
    let made = store_in(rt, alloc, file, calls, medium);
    let (store, found) = made.expect(rt, "a journal");
    let base = store.preface().base() as usize;
    let short = store.preface().condensed() as usize;
    let desk = restore::<Manual, Store, Manuals>(alloc, 1_000, store, &found, &Manuals);
    (desk.expect(rt, "a desk"), found, (base, short))
}

/// A file has these entries, but for the older of them where others stand for these, and a desk is made of it.
pub(crate) fn expect_file(rt: &impl Abort, alloc: Global, file: &[u8], stored: &[Stored]) {
    let medium = Spare::of(rt, alloc, &[]);
    let (_desk, found, (base, short)) = desk_in(rt, alloc, file, usize::MAX, medium);
    let newer = found.get(short..).unwrap_or(&[]);
    let expected = stored.get(base.saturating_add(short)..).unwrap_or(&[]);
    same(rt, &newer, &expected, &base);
    holds(rt, newer.len() >= NEWEST.min(stored.len()), "the newest");
}
