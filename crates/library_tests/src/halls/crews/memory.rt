use crate::halls::crews::plans::{ROOM, Wish, plan_of, serve_notes};
use crate::same::{holds, same};
use crew::{CallEnd, CrewWhy};
use desk_core::Setting;
use std::alloc::Global;
use std::process::Abort;
use std::sync::Wait;
use std::thread::Threads;
use test_support::requests::CHECK_OF_EMPTY;
use web_call::{ExchangeFault, Why};

/// How many bytes more are left at each step: glibc gives out no fewer.
const STEP: usize = 32;

/// A crew that is tried with little memory: its workers, what its jobs ask, and its lists of orders, with how many orders they have.
#[derive(Clone, Copy)]
struct Trial {
    workers: u16,
    requests: &'static [Option<&'static [u8]>],
    lists: &'static [&'static [Wish]],
    orders: usize,
}

// How a crew fares that has little memory, each way as a bit. Here it makes no threads, since there is none for their stacks.

/// It tells that a call was lost, and had opened no job.
const LOST: u32 = 1;

/// It tells that a call was lost, and had opened some of the jobs.
const STOPPED: u32 = 2;

/// It tells that memory ran out, and had opened all jobs.
const NO_MEMORY: u32 = 4;

/// It reports all calls, and of the jobs that could be opened some ended out of memory.
const STARVED: u32 = 8;

/// It reports all calls, and each job that could be opened was answered.
const SERVED: u32 = 16;

const UNANSWERED: CallEnd = CallEnd::Fault(ExchangeFault {
    why: Why::NoMemory,
    frames: 0,
});

/// How a crew fared that has opened so many of its jobs, of which there are so many.
fn fare_of(
    rt: &impl Abort,
    calls: &Result<Vec<CallEnd>, CrewWhy>,
    requests: usize,
    opened: usize,
) -> u32 {
    let has_opened_all = opened == requests;
    let (fare, fits) = match calls {
        Ok(calls) if calls.contains(&UNANSWERED) => (STARVED, has_opened_all),
        Ok(_) => (SERVED, has_opened_all),
        Err(CrewWhy::Lost) if opened == 0 => (LOST, requests > 0),
        Err(CrewWhy::Lost) => (STOPPED, opened < requests),
        Err(why) => (NO_MEMORY, *why == CrewWhy::NoMemory && has_opened_all),
    };
    holds(rt, fits, "the jobs that were opened");
    fare
}

/// Tries a crew with so many bytes left, and looks at what it has made. With none left it can't begin, and a crew without jobs wants
/// memory only to begin with; one that has begun makes all orders, for which the journal has room without new memory.
fn fare_with<R: Wait + Threads + Sync + Abort>(
    rt: &R,
    alloc: Global,
    trial: &Trial,
    left: usize,
) -> u32 {
    let lists = u16::try_from(trial.lists.len()).expect(rt, "few lists");
    let mut plan = plan_of(trial.workers);
    plan.seats = trial.workers.saturating_add(lists).saturating_add(1);
    plan.left = Some(left);
    let (found, opened) = serve_notes(rt, alloc, &plan, trial.lists, trial.requests);
    let requests = trial.requests.len();
    let fare = fare_of(rt, &found.calls, requests, opened as usize);
    let cannot_begin = left == 0 || requests == 0;
    if found.calls.is_err() && (opened > 0 || cannot_begin) {
        // two registrations, and the orders
        let orders = if opened > 0 { trial.orders } else { 0 };
        let entries = orders.saturating_add(2);
        same(rt, &found.entries, &Some(entries), &"without report");
    }
    fare
}

/// How a crew fares with more and more memory left, up to where it fares so for the first time: in which ways before that, and at which
/// step.
///
/// It is tried with ample memory first: once it has looked for a thread, the C library takes single pages too where the heap is
/// used up, and only then are those taken with the rest.
fn fares_until<R: Wait + Threads + Sync + Abort>(
    rt: &R,
    alloc: Global,
    trial: &Trial,
    last: u32,
) -> (u32, usize) {
    let ample = fare_with(rt, alloc, trial, ROOM / 2);
    same(rt, &ample, &SERVED, &"half the room");
    let mut before = 0u32;
    for step in 0..ROOM / STEP {
        let fare = fare_with(rt, alloc, trial, STEP * step);
        if fare == last {
            return (before, step);
        }
        before |= fare;
    }
    panic!(rt; "never so")
}

/// Two lists of orders, and no call.
static ORDERS: Trial = Trial {
    workers: 1,
    requests: &[],
    lists: &[
        &[
            Wish::Set("a", Setting::Down),
            Wish::Set("", Setting::Down),
            Wish::Set("a", Setting::Up),
        ],
        &[Wish::Set("", Setting::Up)],
    ],
    orders: 4,
};

#[test]
fn no_order_is_made_where_there_is_no_memory_for_its_result(rt: HostRuntime) {
    let (before, _) = fares_until(&rt, rt.alloc(), &ORDERS, SERVED);
    same(&rt, &before, &NO_MEMORY, &"orders");
}

/// A Check, and one order.
static CHECK: Trial = Trial {
    workers: 1,
    requests: &[Some(CHECK_OF_EMPTY)],
    lists: &[&[Wish::Set("a", Setting::Down)]],
    orders: 1,
};

#[test]
fn a_call_is_lost_or_starved_or_not_reported_when_out_of_memory(rt: HostRuntime) {
    let (before, _) = fares_until(&rt, rt.alloc(), &CHECK, SERVED);
    same(&rt, &before, &(LOST | NO_MEMORY | STARVED), &"a Check");
}

const NONE: Option<&[u8]> = None;

const ASKS: Option<&[u8]> = Some(CHECK_OF_EMPTY);

/// So many calls that the report of the last one takes new memory, if that is taken in powers of two. Some have lost their ends.
static CALLS: [Option<&[u8]>; 65] = [
    ASKS, NONE, NONE, ASKS, NONE, ASKS, ASKS, NONE, NONE, NONE, NONE, NONE, NONE, //
    NONE, NONE, NONE, NONE, NONE, NONE, NONE, NONE, NONE, NONE, NONE, NONE, NONE, //
    NONE, NONE, NONE, ASKS, ASKS, ASKS, NONE, NONE, NONE, NONE, NONE, NONE, NONE, //
    NONE, NONE, NONE, NONE, NONE, NONE, NONE, NONE, NONE, NONE, NONE, NONE, NONE, //
    NONE, NONE, NONE, NONE, NONE, NONE, NONE, NONE, NONE, NONE, NONE, NONE, ASKS,
];

static ONE_ORDER: &[&[Wish]] = &[&[Wish::Set("a", Setting::Down)]];

/// With as much memory as lets a crew of three tell of all calls a crew of one has stopped.
#[test]
fn a_worker_without_memory_for_a_report_leaves_the_jobs_to_the_others(rt: HostRuntime) {
    let alloc = rt.alloc();
    let mut trial = Trial {
        workers: 1,
        requests: &CALLS,
        lists: ONE_ORDER,
        orders: 1,
    };
    let (before, _) = fares_until(&rt, alloc, &trial, STARVED);
    same(&rt, &before, &(LOST | STOPPED), &"alone");
    trial.workers = 3;
    let (_, enough) = fares_until(&rt, alloc, &trial, STARVED);
    trial.workers = 1;
    let left = STEP.saturating_mul(enough);
    let alone = fare_with(&rt, alloc, &trial, left);
    same(&rt, &alone, &STOPPED, &"with as much");
}
