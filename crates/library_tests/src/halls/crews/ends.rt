//! How calls end, and which steps they pass on their way.

use crate::halls::crews::letters::{Letter, Noted, note};
use crate::halls::crews::plans::{Found, Plan, manuals, plan_of, serve};
use crate::same::same;
use crew::{CallEnd, CrewWhy, Turnstile};
use grpc_frame::Code;
use std::alloc::Global;
use std::io;
use std::io::Sink;
use std::process::Abort;
use std::sync::Wait;
use std::sync::atomic::{AtomicU32, Ordering};
use std::thread::Threads;
use test_support::requests::CHECK_OF_EMPTY;
use web_call::{ExchangeFault, Outcome, Why};

// What is seen of a call from outside, in the order in which it has to come: a digit for each. Its opening makes a 2 of the first.

const ENTER: u32 = 1;

const DROP_OUTPUT: u32 = 3;

const DROP_INPUT: u32 = 4;

const LEAVE: u32 = 5;

/// A turnstile that follows three calls on their way: the digits of their steps.
#[derive(Drop)]
struct Follower {
    steps: [AtomicU32; 3],
}

impl Follower {
    fn new() -> Follower {
        Follower {
            steps: [AtomicU32::new(0), AtomicU32::new(0), AtomicU32::new(0)],
        }
    }

    fn steps(&self) -> [u32; 3] {
        let [first, second, third] = &self.steps;
        [
            first.load(Ordering::SeqCst),
            second.load(Ordering::SeqCst),
            third.load(Ordering::SeqCst),
        ]
    }
}

impl Turnstile for Follower {
    fn enter<R: Wait>(&self, _rt: &R, number: u32) {
        if let Some(steps) = self.steps.get(number as usize) {
            note(steps, ENTER);
        }
    }

    fn leave<R: Wait>(&self, _rt: &R, number: u32) {
        if let Some(steps) = self.steps.get(number as usize) {
            note(steps, LEAVE);
        }
    }
}

type Followed<'a> = Letter<'a, Noted<'a, &'static [u8]>, Noted<'a, Sink>>;

/// A call with this request, unless its two ends were lost, that is followed.
fn followed<'a>(request: Option<&'static [u8]>, steps: &'a AtomicU32) -> Followed<'a> {
    let ends = match request {
        Some(text) => {
            let input = Noted {
                end: text,
                digit: DROP_INPUT,
                steps,
            };
            let output = Noted {
                end: io::sink(),
                digit: DROP_OUTPUT,
                steps,
            };
            Some((input, output))
        }
        None => None,
    };
    Letter::new(ends, steps)
}

/// Three calls: a Check, one that can't be opened, and one whose request ends within its head.
fn three_calls<'a>(rt: &impl Abort, alloc: Global, follower: &'a Follower) -> Vec<Followed<'a>> {
    let [first, second, third] = &follower.steps;
    let mut jobs = Vec::new(alloc);
    let check = followed(Some(CHECK_OF_EMPTY), first);
    jobs.push(check).expect(rt, "memory");
    let lost = followed(None, second);
    jobs.push(lost).expect(rt, "memory");
    let cut = followed(Some(b"POST"), third);
    jobs.push(cut).expect(rt, "memory");
    jobs
}

/// Lets a crew serve the three calls.
fn serve_three<R: Wait + Threads + Sync + Abort>(
    rt: &R,
    alloc: Global,
    plan: &Plan,
    follower: &Follower,
) -> Found {
    let jobs = three_calls(rt, alloc, follower);
    let probes = manuals(rt, alloc);
    serve(rt, alloc, plan, Vec::new(alloc), probes, jobs, follower)
}

static ENDS: [CallEnd; 3] = [
    CallEnd::Done(Outcome::Status(Code::Ok)),
    CallEnd::Unopened,
    CallEnd::Fault(ExchangeFault {
        why: Why::Read,
        frames: 0,
    }),
];

// Each job is opened once, between its entering and its leaving, and both its ends are dropped before it leaves.
#[test]
fn each_call_ends_at_its_number_and_passes_its_steps_in_order(rt: HostRuntime) {
    let follower = Follower::new();
    let found = serve_three(&rt, rt.alloc(), &plan_of(2), &follower);
    let calls = found.calls.expect(&rt, "a report");
    same(&rt, &calls.as_slice(), &ENDS.as_slice(), &"ends");
    same(&rt, &follower.steps(), &[2_345, 25, 2_345], &"steps");
}

// Two of the jobs have ends, which are dropped with them.
#[test]
fn a_crew_that_is_refused_lets_no_call_enter_and_opens_none(rt: HostRuntime) {
    let follower = Follower::new();
    let mut plan = plan_of(2);
    plan.seats = 1;
    let found = serve_three(&rt, rt.alloc(), &plan, &follower);
    same(&rt, &found.calls, &Err(CrewWhy::NoSeats), &"calls");
    same(&rt, &follower.steps(), &[43, 0, 43], &"steps");
}
