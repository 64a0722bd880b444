//! A file is written anew each time it has grown long.

use crate::journals::histories::{Random, Sessions, history, stored_as};
use crate::journals::spare::{Replacing, Spare};
use crate::journals::stores::{NEWEST, expect_file, store_in};
use crate::same::{holds, same};
use desk_core::{Entry, Keep};
use entry_record::Stored;
use std::alloc::Global;
use std::process::Abort;

/// How long a file is at least before it is written anew.
const LEAST: usize = 600;

/// How many entries there are.
const COUNT: usize = 300;

/// Stores entries one by one. Says how often the file was written anew, and how often it was then to be opened anew.
fn store_each(
    rt: &impl Abort,
    alloc: Global,
    replacing: Replacing,
    entries: &[Entry],
    stored: &[Stored],
) -> (usize, usize) {
    let mut medium = Spare::of(rt, alloc, &[]);
    medium.replacing = replacing;
    let made = store_in(rt, alloc, &[], usize::MAX, medium);
    let (store, _) = made.expect(rt, "a store");
    let mut store = store.with_least(LEAST).with_newest(NEWEST);
    let (mut times, mut failures) = (0usize, 0usize);
    for number in 0..entries.len() {
        let base = store.preface().base();
        let is_stored = store.store(&entries[number..number + 1]).is_ok();
        holds(rt, is_stored, "stored");
        times = times.saturating_add(usize::from(store.preface().base() > base));
        match store.device() {
            Some(device) => {
                let front = stored.get(..number + 1).unwrap_or(&[]);
                expect_file(rt, alloc, device.bytes(), front);
            }
            None => failures = failures.saturating_add(1),
        }
    }
    (times, failures)
}

/// A seed, whether the new file is put in the place of the old one, how often that fails, and whether the file is written anew more than
/// ten times. Where the old file stayed, that is put off.
static ROWS: [(u64, Replacing, usize, bool); 7] = [
    (1, Replacing::Works, 0, true),
    (2, Replacing::Works, 0, true),
    (3, Replacing::Works, 0, true),
    (4, Replacing::Works, 0, true),
    (5, Replacing::Works, 0, true),
    (9, Replacing::LeavesOld, 1, false),
    (9, Replacing::LeavesNew, 1, true),
];

/// Each entry is stored, and in the file, whatever becomes of a rewriting.
#[test]
fn a_long_file_is_written_anew(rt: HostRuntime) {
    let alloc = rt.alloc();
    for &(seed, replacing, expected, is_anew) in &ROWS {
        let desk = history(&rt, alloc, &mut Random(seed), COUNT);
        let stored = stored_as(&rt, alloc, desk.journal());
        let (times, failures) = store_each(&rt, alloc, replacing, desk.journal(), &stored);
        same(&rt, &(failures, times > 10), &(expected, is_anew), &seed);
    }
}
