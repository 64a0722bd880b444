//! Lists of orders beside one another, and Watches beside them: each list waits, but not for ever, until the others have begun.

use crate::halls::crews::letters::Letter;
use crate::halls::crews::paced::{Heard, PAUSE, Paced};
use crate::halls::crews::plans::{Found, Wish, orders_of, plan_of, serve};
use crate::same::{holds, same};
use crew::OpenTurnstile;
use desk_core::{Order, Setting};
use std::alloc::Global;
use std::process::Abort;
use std::sync::Wait;
use std::sync::atomic::AtomicU32;
use std::thread::Threads;
use std::time::Clock;
use test_support::requests::WATCH_OF_A;

/// How many orders a list has, which is more than are made before the other lists begin.
const ORDERS: u32 = 200;

/// So many orders, which set the service Down and Up in turn.
fn flips(rt: &impl Abort, alloc: Global, name: &'static str) -> Vec<Wish> {
    let mut wishes = Vec::new(alloc);
    for _ in 0..ORDERS / 2 {
        for setting in [Setting::Down, Setting::Up] {
            wishes.push(Wish::Set(name, setting)).expect(rt, "memory");
        }
    }
    wishes
}

/// A list for each of the three names. That of `a` has one order more, before which the others have the time to end, and Watches to tell
/// all changes and to wait.
fn three_lists(rt: &impl Abort, alloc: Global) -> Vec<Vec<Order>> {
    let mut lists = Vec::new(alloc);
    for name in ["", "a", "b"] {
        let mut wishes = flips(rt, alloc, name);
        if name == "a" {
            let more = [Wish::SetLong, Wish::SetLong, Wish::Set(name, Setting::Down)];
            wishes.extend_from_slice(&more).expect(rt, "memory");
        }
        let orders = orders_of(rt, alloc, &wishes);
        lists.push(orders).expect(rt, "memory");
    }
    lists
}

/// A Watch of `a` for each page that it writes to.
type Watching<'a> = Letter<'a, &'static [u8], &'a mut Vec<u8>>;

fn watches<'a>(
    rt: &impl Abort,
    alloc: Global,
    opened: &'a AtomicU32,
    pages: &'a mut [Vec<u8>],
) -> Vec<Watching<'a>> {
    let mut jobs = Vec::new(alloc);
    for page in pages {
        let watch = Letter::new(Some((WATCH_OF_A, page)), opened);
        jobs.push(watch).expect(rt, "memory");
    }
    jobs
}

/// Two Watches of `a` beside three lists, each of which hears its orders slowly until the two others have begun.
fn serve_three_lists<'a, R: Wait + Threads + Sync + Clock + Abort>(
    rt: &'a R,
    alloc: Global,
    heard: &'a [Heard; 3],
    opened: &'a AtomicU32,
    pages: &mut [Vec<u8>],
) -> Found {
    let [of_all, of_a, of_b] = heard;
    let mut plan = plan_of(2);
    plan.most = 10_000;
    plan.seats = 6;
    plan.looks = u32::MAX;
    let probes = [
        Paced::new(rt, of_a, opened, &of_b.events, 2, PAUSE),
        Paced::new(rt, of_all, &of_a.events, &of_b.events, 1, PAUSE),
        Paced::new(rt, of_b, &of_a.events, &of_all.events, 1, PAUSE),
    ];
    let probes = Vec::from_array(alloc, probes).expect(rt, "memory");
    let orders = three_lists(rt, alloc);
    let jobs = watches(rt, alloc, opened, pages);
    serve(rt, alloc, &plan, orders, probes, jobs, &OpenTurnstile)
}

/// The last two statuses of a Watch that was told all changes of `a`, and its end.
const LAST: &[u8] = b"7\r\n\x00\x00\x00\x00\x02\x08\x01\r\n\
    7\r\n\x00\x00\x00\x00\x02\x08\x02\r\n\
    2f\r\n\
    \x80\x00\x00\x00\x2agrpc-status:14\r\n\
    grpc-message:watch ended\r\n\
    \r\n\
    0\r\n\
    \r\n";

// A crew that makes one list behind another, or two side by side and then the third, makes all orders of some of them before the others
// begin. One that rings for its first list alone, or that ends the Watches with the list that is done first, does not tell them the
// last change; nor does a worker that ends its Watches early.
#[test]
fn three_lists_are_made_at_the_same_time_and_watches_end_behind_the_last(rt: HostRuntime) {
    let alloc = rt.alloc();
    let heard = [Heard::new(), Heard::new(), Heard::new()];
    let opened = AtomicU32::new(0);
    let mut pages = [Vec::new(alloc), Vec::new(alloc)];
    let found = serve_three_lists(&rt, alloc, &heard, &opened, &mut pages);
    same(&rt, &found.entries, &Some(604), &"entries");
    for heard in &heard {
        holds(&rt, heard.alone() < ORDERS, "beside the others");
    }
    for page in &pages {
        holds(&rt, page.ends_with(LAST), "the last change");
    }
}
