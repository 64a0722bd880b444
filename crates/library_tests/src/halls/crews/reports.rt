//! What a crew reports: the ends of its calls, and the results of its orders.

use crate::calls::texts::{WATCH_OF_FLIPS, WATCH_OF_RISE, WATCH_OF_SERVING};
use crate::halls::crews::letters::{Letter, Note, notes};
use crate::halls::crews::plans::{Found, Wish, lists_of, manuals, plan_of, serve};
use crate::same::{holds, same};
use crew::{CallEnd, CrewWhy, OpenTurnstile, Turnstile, gather};
use desk_core::{Finding, Refusal, Reply, Setting};
use grpc_frame::Code;
use probe_core::Manual;
use std::alloc::Global;
use std::process::Abort;
use std::sync::Wait;
use std::sync::atomic::{AtomicU32, Ordering};
use std::thread;
use std::thread::Threads;
use std::time::{Clock, Duration};
use test_support::requests::{CHECK_OF_EMPTY, WATCH_OF_A};
use web_call::Outcome;

const FIRST: CallEnd = CallEnd::Unopened;

const SECOND: CallEnd = CallEnd::Done(Outcome::Http(400));

/// How many calls there were, their reports, and the ends by their numbers, or why there are none.
type Gathered = (
    u32,
    &'static [(u32, CallEnd)],
    Result<&'static [CallEnd], CrewWhy>,
);

static GATHERED: [Gathered; 6] = [
    (2, &[(0, FIRST), (2, SECOND)], Err(CrewWhy::Stranger)),
    (2, &[(0, FIRST), (0, SECOND)], Err(CrewWhy::Doubled)),
    (2, &[(1, SECOND)], Err(CrewWhy::Lost)),
    (2, &[(1, SECOND), (0, FIRST)], Ok(&[FIRST, SECOND])),
    // the first from the left counts, and before one that is lost
    (
        1,
        &[(0, FIRST), (5, SECOND), (0, FIRST)],
        Err(CrewWhy::Stranger),
    ),
    (
        3,
        &[(2, FIRST), (2, SECOND), (5, FIRST)],
        Err(CrewWhy::Doubled),
    ),
];

#[test]
fn each_call_has_one_report(rt: HostRuntime) {
    for &(count, reports, expected) in &GATHERED {
        let reports = Vec::from_slice(rt.alloc(), reports).expect(&rt, "memory");
        let gathered = gather(rt.alloc(), count, reports);
        let found = match &gathered {
            Ok(ends) => Ok(ends.as_slice()),
            Err(why) => Err(*why),
        };
        same(&rt, &found, &expected, &count);
    }
}

/// There is one list of orders, with these results.
fn expect_orders(rt: &impl Abort, found: &Found, expected: &[Result<Reply, Refusal>]) {
    let lists = found.orders.as_ref().expect(rt, "a report");
    same(rt, &lists.len(), &1, &"lists");
    for results in lists {
        same(rt, &results.as_slice(), &expected, &"results");
    }
}

#[test]
fn an_order_of_a_name_that_is_not_listed_is_refused_and_makes_no_entry(rt: HostRuntime) {
    let alloc = rt.alloc();
    let mut plan = plan_of(1);
    plan.seats = 2;
    let orders = lists_of(&rt, alloc, &[&[Wish::Observe("zz", Finding::Fail)]]);
    let probes: Vec<Manual> = Vec::new(alloc);
    let jobs: Vec<Note<'_>> = Vec::new(alloc);
    let found = serve(&rt, alloc, &plan, orders, probes, jobs, &OpenTurnstile);
    expect_orders(&rt, &found, &[Err(Refusal::NotListed)]);
    same(&rt, &found.entries, &Some(0), &"entries");
}

/// What a Watch may tell of a service that is set Down and then Up beside it: that depends on when it was opened.
static TOLD: [&[u8]; 3] = [WATCH_OF_FLIPS, WATCH_OF_RISE, WATCH_OF_SERVING];

#[test]
fn a_watch_tells_each_change_from_its_opening(rt: HostRuntime) {
    let alloc = rt.alloc();
    let (opened, mut page) = (AtomicU32::new(0), Vec::new(alloc));
    let watch = Letter::new(Some((WATCH_OF_A, &mut page)), &opened);
    let mut jobs = Vec::new(alloc);
    jobs.push(watch).expect(&rt, "memory");
    let wishes: [Wish; 2] = [Wish::Set("a", Setting::Down), Wish::Set("a", Setting::Up)];
    let orders = lists_of(&rt, alloc, &[&wishes]);
    let probes = Vec::from_array(alloc, [Manual::new()]).expect(&rt, "memory");
    let mut plan = plan_of(1);
    plan.seats = 2;
    let found = serve(&rt, alloc, &plan, orders, probes, jobs, &OpenTurnstile);
    expect_orders(&rt, &found, &[Ok(Reply::Done), Ok(Reply::Done)]);
    let mut is_told = false;
    for text in &TOLD {
        is_told = is_told || *text == page.as_slice();
    }
    holds(&rt, is_told, "a Watch");
}

/// How many milliseconds a gate waits at most.
const PATIENCE: u32 = 30_000;

/// A gate that holds each call until two have entered, unless it gives up.
#[derive(Drop)]
struct Gate<'a, C> {
    clock: &'a C,
    entered: AtomicU32,
    given_up: AtomicU32,
}

impl<C: Clock + Sync> Turnstile for Gate<'_, C> {
    fn enter<R: Wait>(&self, _rt: &R, _number: u32) {
        self.entered.fetch_add(1, Ordering::SeqCst);
        for _ in 0..PATIENCE {
            if self.entered.load(Ordering::SeqCst) >= 2 {
                return;
            }
            thread::sleep(self.clock, Duration::from_millis(1));
        }
        self.given_up.fetch_add(1, Ordering::SeqCst);
    }

    fn leave<R: Wait>(&self, _rt: &R, _number: u32) {}
}

/// Two calls of two workers, and how many of them the gate gave up.
fn serve_side_by_side<R: Wait + Threads + Sync + Clock + Abort>(
    rt: &R,
    alloc: Global,
) -> (Found, u32) {
    let gate = Gate {
        clock: rt,
        entered: AtomicU32::new(0),
        given_up: AtomicU32::new(0),
    };
    let opened = AtomicU32::new(0);
    let requests = [Some(CHECK_OF_EMPTY), Some(CHECK_OF_EMPTY)];
    let jobs = notes(rt, alloc, &requests, &opened);
    let probes = manuals(rt, alloc);
    let found = serve(rt, alloc, &plan_of(2), Vec::new(alloc), probes, jobs, &gate);
    (found, gate.given_up.load(Ordering::SeqCst))
}

// A crew that serves all calls in one thread lets none pass the gate before that gives up.
#[test]
fn two_workers_serve_their_calls_at_the_same_time(rt: HostRuntime) {
    let (found, given_up) = serve_side_by_side(&rt, rt.alloc());
    same(&rt, &given_up, &0, &"the gate");
    let calls = found.calls.expect(&rt, "a report");
    let checked = CallEnd::Done(Outcome::Status(Code::Ok));
    let expected = [checked, checked];
    same(&rt, &calls.as_slice(), &expected.as_slice(), &"calls");
}
