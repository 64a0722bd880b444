//! Records and their parts, in a slot that a slow writer has half written over.

use crate::same::same;
use record_ring::{Missing, Record, Slot, Word};
use std::sync::atomic::{AtomicU32, Ordering};
use std::thread;

fn record_of(number: u32) -> Record {
    Record {
        micros: u64::from(number) * 0x1_0000_0001,
        session: number,
        sort: number,
    }
}

/// The parts of a record, as bits.
const PARTS: [u32; 4] = [1, 2, 4, 8];

/// What is found of the laps 0 and 1 where the writer of lap 1 has put these parts in.
fn expected_of(later: u32) -> (Result<Record, Missing>, Result<Record, Missing>) {
    match later {
        0 => (Ok(record_of(7)), Err(Missing::Awaited)),
        15 => (Err(Missing::WrittenOver), Ok(record_of(9))),
        _ => (Err(Missing::WrittenOver), Err(Missing::Awaited)),
    }
}

/// Whichever parts two writers have put in of laps of their own, no lap has a record but the one that has all of its parts.
#[test]
fn a_record_of_parts_of_two_laps_is_not_believed(rt: HostRuntime) {
    for later in 0..16u32 {
        let slot = Slot::new();
        slot.put(0, record_of(7));
        for (part, word) in PARTS.iter().zip(&slot.words()) {
            if later & *part != 0 {
                word.put(1, 9);
            }
        }
        // A slow writer of lap 0 changes nothing any more.
        slot.put(0, record_of(8));
        let found = (slot.record(0), slot.record(1));
        same(&rt, &found, &expected_of(later), &later);
    }
}

#[test]
fn a_new_slot_stands_at_the_lap_before_the_first(rt: HostRuntime) {
    let found = Slot::new().record(u32::MAX);
    same(&rt, &found, &Ok(record_of(0)), &"the lap before the first");
}

const THREADS: usize = 4;

/// How many laps each thread puts in.
const LAPS: u32 = 50_000;

/// Puts one lap after the other in, of which each thread takes the next, and counts those that are gone again where none is later.
fn put_laps(word: &Word, laps: &AtomicU32, lost: &AtomicU32) {
    for _ in 0..LAPS {
        let lap = laps.fetch_add(1, Ordering::SeqCst);
        word.put(lap, lap);
        if word.part(lap) == Err(Missing::Awaited) {
            lost.fetch_add(1, Ordering::SeqCst);
        }
    }
}

#[test]
fn no_part_gives_way_to_one_of_an_earlier_lap(rt: HostRuntime) {
    let word = Word::new();
    // The number of laps goes round in the midst of them.
    word.put(0x7000_0000, 0);
    word.put(0xe000_0000, 0);
    let (laps, lost) = (AtomicU32::new(u32::MAX - 99_999), AtomicU32::new(0));
    let run = |_: usize| put_laps(&word, &laps, &lost);
    thread::map_indices(&rt, rt.alloc(), THREADS, &run).expect(&rt, "memory");
    same(&rt, &lost.load(Ordering::SeqCst), &0, &"lost");
    same(&rt, &word.part(99_999), &Ok(99_999), &"the last");
}
