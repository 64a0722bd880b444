//! The refusals, in one thread and in several.

use crate::same::{holds, same};
use chronicle::{Chronicle, Refusals, Refused, Who};
use std::sync::atomic::{AtomicBool, Ordering};
use std::thread;

// Whoever takes one down has its place and has not put it in yet.
#[test]
fn a_refusal_that_is_being_taken_down_is_awaited(rt: HostRuntime) {
    let refusals = Refusals::new(rt.alloc()).expect(&rt, "memory");
    refusals.take_place();
    refusals.put(refusals.take_place(), 7, Who::Session(7), 7);
    let mut cursor = 0;
    same(&rt, &refusals.refused(&mut cursor), &None, &"the first");
    same(&rt, &cursor, &0, &"cursor");
    for number in 0..1_023 {
        refusals.put(refusals.take_place(), number, Who::Session(8), 8);
    }
    let expected = Refused {
        lost: 1,
        micros: 7,
        who: Who::Session(7),
        reason: 7,
    };
    let found = refusals.refused(&mut cursor);
    same(&rt, &found, &Some(expected), &"the second");
    same(&rt, &cursor, &2, &"cursor");
}

const SESSIONS: usize = 3;

const EACH: u64 = 5_000;

/// Takes down the refusals of a session, or else reads what there is; tells how many were told or lost.
fn read_all(chronicle: &Chronicle, cursor: &mut u64, last: &mut [u64; SESSIONS]) -> (u64, bool) {
    let mut count = 0u64;
    let mut is_ordered = true;
    for _ in 0..EACH * SESSIONS as u64 {
        let Some(refused) = chronicle.refused(cursor) else {
            break;
        };
        count = count.saturating_add(refused.lost).saturating_add(1);
        let thread = refused.reason;
        is_ordered &= refused.who == Who::Session(u32::from(thread));
        if let Some(last) = last.get_mut(usize::from(thread)) {
            is_ordered &= *last < refused.micros;
            *last = refused.micros;
        }
    }
    (count, is_ordered)
}

/// What a thread does: the last one reads, and the others take down.
fn refuse_or_read(chronicle: &Chronicle, thread: usize, wrong: &AtomicBool) {
    if thread < SESSIONS {
        for micros in 1..=EACH {
            chronicle.refuse(micros, Who::Session(thread as u32), thread as u8);
            chronicle.next_session();
        }
        return;
    }
    let (mut cursor, mut last) = (0, [0; SESSIONS]);
    for _ in 0..EACH {
        if !read_all(chronicle, &mut cursor, &mut last).1 {
            wrong.store(true, Ordering::SeqCst);
        }
    }
}

#[test]
fn threads_refuse_and_another_one_reads(rt: HostRuntime) {
    let chronicle = Chronicle::new(rt.alloc()).expect(&rt, "memory");
    let wrong = AtomicBool::new(false);
    let run = |thread: usize| refuse_or_read(&chronicle, thread, &wrong);
    thread::map_indices(&rt, rt.alloc(), SESSIONS + 1, &run).expect(&rt, "memory");
    holds(&rt, !wrong.load(Ordering::SeqCst), "order");
    let (mut cursor, mut last) = (0, [0; SESSIONS]);
    let all = EACH * SESSIONS as u64;
    let told = read_all(&chronicle, &mut cursor, &mut last);
    same(&rt, &told, &(all, true), &"told or lost");
    same(&rt, &cursor, &all, &"cursor");
    let next = SESSIONS as u32 * EACH as u32 + 1;
    same(&rt, &chronicle.next_session(), &next, &"sessions");
}
