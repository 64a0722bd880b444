//! A ring of three slots.

use crate::same::same;
use record_ring::{Missing, Record, Ring};
use std::process::Abort;
use std::sync::atomic::{AtomicU64, Ordering};
use std::thread;

/// What the tests put in at a place. Each part of it tells the place.
fn record_at(place: u64) -> Record {
    let number = (place % 0x1_0000_0000) as u32;
    Record {
        micros: place.wrapping_mul(0x1_0000_0001),
        session: number,
        sort: !number,
    }
}

fn expect(rt: &impl Abort, ring: &Ring, place: u64, expected: Result<Record, Missing>) {
    same(rt, &ring.record(place), &expected, &place);
}

/// How many places the threads put in, and how many threads there are.
const PLACES: u64 = 40_000;

const THREADS: u64 = 4;

/// Puts in each place of a thread, and looks meanwhile at places that others put in. A place that had another's record is noted.
fn put_and_look(ring: &Ring, thread: u64, wrong: &AtomicU64) {
    for turn in 0..PLACES / THREADS {
        let place = turn * THREADS + thread % THREADS;
        ring.put(place, record_at(place));
        let seen = place.saturating_sub(turn % 7);
        if let Ok(record) = ring.record(seen) {
            if record != record_at(seen) {
                wrong.store(seen, Ordering::SeqCst);
            }
        }
    }
}

#[test]
fn threads_never_see_a_record_of_another_place(rt: HostRuntime) {
    let ring = Ring::new(rt.alloc(), 3).expect(&rt, "memory");
    let wrong = AtomicU64::new(u64::MAX);
    let run = |thread: usize| put_and_look(&ring, thread as u64, &wrong);
    thread::map_indices(&rt, rt.alloc(), THREADS as usize, &run).expect(&rt, "memory");
    same(&rt, &wrong.load(Ordering::SeqCst), &u64::MAX, &"wrong");
    for place in PLACES - 3..PLACES {
        expect(&rt, &ring, place, Ok(record_at(place)));
    }
}

#[test]
fn finds_the_first_place_that_is_kept(rt: HostRuntime) {
    let ring = Ring::new(rt.alloc(), 3).expect(&rt, "memory");
    for place in [0, 1, 2, 3, 4, 6] {
        ring.put(place, record_at(place));
    }
    let first = Some((2, record_at(2)));
    same(&rt, &ring.first_kept(0, 7), &first, &"1 is written over");
    same(&rt, &ring.first_kept(5, 7), &None, &"5 is awaited");
}
