//! A device stops at each of its calls in turn, and a crash tears the write that was not synced.

use crate::journals::histories::{Random, history, stored_as};
use crate::journals::spare::{OPENING, Spare};
use crate::journals::stores::{Store, expect_file, store_in};
use crate::same::same;
use desk_core::{Entry, Keep};
use entry_record::Stored;
use record_log::Memory;
use std::alloc::Global;
use std::process::Abort;

/// How many calls of a device a batch takes: two writes, each synced.
const BATCH: usize = 4;

/// A run over a file: how many calls of a device opening it takes, the entries of a history, also as a file has them, and how many are
/// stored at once. There are more than a run stores before its device stops.
#[derive(Clone, Copy)]
struct Run<'a> {
    file: &'a [u8],
    opening: usize,
    entries: &'a [Entry],
    stored: &'a [Stored],
    batch: usize,
}

/// Stores the entries behind so many, up to a batch that is refused. Says how many are stored then.
fn store_from(store: &mut Store, run: Run<'_>, from: usize) -> usize {
    let mut stored = from;
    let entries = run.entries.get(from..).unwrap_or(&[]);
    for batch in entries.chunks(run.batch.max(1)) {
        if store.store(batch).is_err() {
            break;
        }
        stored = stored.saturating_add(batch.len());
    }
    stored
}

/// A store whose device stopped after so many calls behind its opening, how many entries it found, and how many it has. It opens what is
/// given anew.
fn stopped(
    rt: &impl Abort,
    alloc: Global,
    run: Run<'_>,
    calls: usize,
    spare: &[u8],
) -> (Store, usize, usize) {
    let calls = run.opening.saturating_add(calls);
    let made = store_in(rt, alloc, run.file, calls, Spare::of(rt, alloc, spare));
    let (mut store, found) = made.expect(rt, "a store");
    let count = store_from(&mut store, run, found.len());
    (store, found.len(), count)
}

/// A crash that leaves these bytes of what was not synced leaves so many entries, or those and a batch, whose gate is what was torn.
fn expect_left(
    rt: &impl Abort,
    alloc: Global,
    device: &Memory,
    torn: &[u8],
    stored: &[Stored],
    counts: (usize, usize),
) {
    let file = device.crashed(torn).expect(rt, "memory");
    let count = if torn.starts_with(&[1]) {
        counts.1
    } else {
        counts.0
    };
    expect_file(rt, alloc, &file, stored.get(..count).unwrap_or(&[]));
}

/// Each place at which the bytes end that were not synced, or turn into others.
fn crash_at_each_byte(
    rt: &impl Abort,
    alloc: Global,
    random: &mut Random,
    device: &Memory,
    stored: &[Stored],
    counts: (usize, usize),
) {
    let text = device.unsynced();
    for cut in 0..text.len() + 1 {
        expect_left(rt, alloc, device, &text[..cut], stored, counts);
        let torn = random.garbled(rt, alloc, text, cut);
        expect_left(rt, alloc, device, &torn, stored, counts);
    }
}

/// The crashes of a run whose device stops after so many calls. Gives what one of them left.
fn crash(
    rt: &impl Abort,
    alloc: Global,
    random: &mut Random,
    run: Run<'_>,
    calls: usize,
) -> Vec<u8> {
    let (store, found, count) = stopped(rt, alloc, run, calls, &[]);
    let batches = (calls / BATCH).saturating_mul(run.batch);
    let before = found.saturating_add(batches);
    same(rt, &count, &before, &calls);
    let opened = if calls % BATCH < 2 { 0 } else { run.batch };
    let counts = (before, before.saturating_add(opened));
    let device = store.device().expect(rt, "a device");
    crash_at_each_byte(rt, alloc, random, device, run.stored, counts);
    let text = device.unsynced();
    let cut = ((random.next() % 64) as usize).min(text.len());
    let torn = random.garbled(rt, alloc, text, cut);
    device.crashed(&torn).expect(rt, "memory")
}

/// A store whose device stopped goes on with the file that a crash of it left, as if nothing had been.
fn go_on(rt: &impl Abort, alloc: Global, run: Run<'_>, calls: usize, left: &[u8]) {
    let (mut store, _, count) = stopped(rt, alloc, run, calls, left);
    let count = store_from(&mut store, run, count);
    same(rt, &count, &run.entries.len(), &calls);
    let device = store.device().expect(rt, "a device");
    expect_file(rt, alloc, device.bytes(), run.stored);
}

/// A run on devices that stop at one call after another. Gives what a crash of the last left.
fn crash_at_each_call(
    rt: &impl Abort,
    alloc: Global,
    random: &mut Random,
    run: Run<'_>,
) -> Vec<u8> {
    let mut left = Vec::new(alloc);
    for calls in 0..1 + random.next() % 13 {
        left = crash(rt, alloc, random, run, calls as usize);
        go_on(rt, alloc, run, calls as usize, &left);
    }
    left
}

/// Three runs, each over what a crash of the one before left. The first file has what a crash left of its first gate.
fn three_runs(rt: &impl Abort, alloc: Global, random: &mut Random, entries: &[Entry]) {
    let stored = stored_as(rt, alloc, entries);
    let mut file = random.garbled(rt, alloc, &[0], 0);
    for _ in 0..3 {
        let run = Run {
            file: &file,
            opening: if file.len() < 2 { OPENING } else { 1 },
            entries,
            stored: &stored,
            batch: 1 + (random.next() % 3) as usize,
        };
        file = crash_at_each_call(rt, alloc, random, run);
    }
}

#[test]
fn a_crash_leaves_the_journal_or_that_and_the_batch(rt: HostRuntime) {
    let alloc = rt.alloc();
    for seed in 1..=100 {
        let mut random = Random(seed);
        let desk = history(&rt, alloc, &mut random, 30);
        three_runs(&rt, alloc, &mut random, desk.journal());
    }
}
