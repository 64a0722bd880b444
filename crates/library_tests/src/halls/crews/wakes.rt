//! A Watch that waits beside a list of orders, each of which has to wake it.

use crate::halls::crews::letters::{Letter, Noted};
use crate::halls::crews::paced::{Heard, PAUSE, Paced};
use crate::halls::crews::plans::{Found, Wish, lists_of, plan_of, serve};
use crate::same::{holds, same};
use crew::{CallEnd, OpenTurnstile};
use desk_core::Setting;
use std::alloc::Global;
use std::io::Write;
use std::process::Abort;
use std::sync::Wait;
use std::sync::atomic::{AtomicU32, Ordering};
use std::thread::Threads;
use std::time::{Clock, Duration};
use std::{io, thread};
use test_support::requests::{WATCH_OF_A, WATCH_OF_ZZ};
use web_call::Outcome;

const DOWN: Wish = Wish::Set("a", Setting::Down);

const UP: Wish = Wish::Set("a", Setting::Up);

/// How many orders set `a`, each of them behind one that is refused.
const ROUNDS: u32 = 8;

static WISHES: &[Wish] = &[
    Wish::Set("", Setting::Down),
    Wish::SetLong,
    DOWN,
    Wish::SetLong,
    UP,
    Wish::SetLong,
    DOWN,
    Wish::SetLong,
    UP,
    Wish::SetLong,
    DOWN,
    Wish::SetLong,
    UP,
    Wish::SetLong,
    DOWN,
    Wish::SetLong,
    UP,
];

/// The first order waits until the Watch's job is opened, and those that set `a` until the Watch has ended: its output is dropped.
fn serve_watch<'a, R: Wait + Threads + Sync + Clock + Abort>(
    rt: &'a R,
    alloc: Global,
    heard: &'a Heard,
    first: &'a Heard,
) -> Found {
    let opened = AtomicU32::new(0);
    let ended = AtomicU32::new(0);
    let mut plan = plan_of(1);
    plan.seats = 2;
    plan.looks = ROUNDS + 1;
    let orders = lists_of(rt, alloc, &[WISHES]);
    let output = Noted {
        end: io::sink(),
        digit: 1,
        steps: &ended,
    };
    let watch = Letter::new(Some((WATCH_OF_ZZ, output)), &opened);
    let jobs = Vec::from_array(alloc, [watch]).expect(rt, "memory");
    let of_a = Paced::new(rt, heard, &ended, &ended, 1, PAUSE);
    let of_all = Paced::new(rt, first, &opened, &opened, 1, 30_000);
    let probes = Vec::from_array(alloc, [of_a, of_all]).expect(rt, "memory");
    serve(rt, alloc, &plan, orders, probes, jobs, &OpenTurnstile)
}

// The Watch ends with its last Look, and there are too few for that from the orders that set `a`. So one that is not woken, that is
// woken by the end alone, or by no order that is refused, goes on until all orders are made.
#[test]
fn each_order_wakes_a_watch_also_where_it_is_refused(rt: HostRuntime) {
    let (heard, first) = (Heard::new(), Heard::new());
    let found = serve_watch(&rt, rt.alloc(), &heard, &first);
    let calls = found.calls.expect(&rt, "a report");
    let watched = CallEnd::Done(Outcome::Watched { messages: 1 });
    same(&rt, &calls.as_slice(), &[watched].as_slice(), &"calls");
    holds(&rt, heard.alone() < ROUNDS, "not alone to the end");
}

/// How many milliseconds an output waits at most.
const PATIENCE: u32 = 30_000;

/// Some time passes from the first order, which waits until the Watch's job is opened, to that of `a`.
static ONE_DOWN: &[Wish] = &[
    Wish::Set("", Setting::Down),
    Wish::SetLong,
    Wish::SetLong,
    Wish::SetLong,
    Wish::SetLong,
    DOWN,
];

/// An output whose flush waits until an order of `a` is made.
#[derive(Drop)]
struct Held<'a, C> {
    clock: &'a C,
    heard: &'a Heard,
}

impl<C: Clock> Write for Held<'_, C> {
    fn write(&mut self, buf: &[u8]) -> io::Result<usize> {
        Ok(buf.len())
    }

    fn flush(&mut self) -> io::Result<()> {
        for _ in 0..PATIENCE {
            if self.heard.events.load(Ordering::SeqCst) > 0 {
                break;
            }
            thread::sleep(self.clock, Duration::from_millis(1));
        }
        Ok(())
    }
}

// The order of `a` is made when the first message is flushed: a Look would tell of it.
#[test]
fn a_watch_has_no_more_looks_than_the_crew_gives_it(rt: HostRuntime) {
    let (opened, heard, first) = (AtomicU32::new(0), Heard::new(), Heard::new());
    let mut plan = plan_of(1);
    plan.seats = 2;
    plan.looks = 0;
    let orders = lists_of(&rt, rt.alloc(), &[ONE_DOWN]);
    let output = Held {
        clock: &rt,
        heard: &heard,
    };
    let watch = Letter::new(Some((WATCH_OF_A, output)), &opened);
    let jobs = Vec::from_array(rt.alloc(), [watch]).expect(&rt, "memory");
    let of_a = Paced::new(&rt, &heard, &opened, &opened, 0, PAUSE);
    let of_all = Paced::new(&rt, &first, &opened, &opened, 1, 30_000);
    let probes = Vec::from_array(rt.alloc(), [of_a, of_all]).expect(&rt, "memory");
    let found = serve(&rt, rt.alloc(), &plan, orders, probes, jobs, &OpenTurnstile);
    let calls = found.calls.expect(&rt, "a report");
    let watched = CallEnd::Done(Outcome::Watched { messages: 1 });
    same(&rt, &calls.as_slice(), &[watched].as_slice(), &"calls");
}
