//! What is said to be expected in the moment in which the watchdog takes over what was said before.

ghost use Rattle.hall.specs.Seats.{IsOf};

use crate::halls::watchdogs::making::{expectations, watchdog_by};
use crate::halls::watchdogs::reading::At;
use crate::names::catalogue;
use crate::same::same;
use desk_core::{KeepMany, Slot};
use hall::{Hall, Seat};
use probe_core::Threshold;
use std::alloc::Global;
use std::process::Abort;
use std::sync::atomic::{AtomicBool, Ordering};
use std::sync::{Arc, Wait};
use std::thread;
use watchdog::{Expectations, Watchdog, Wish};

/// How often something else is said, so that some of it falls into that moment.
const TIMES: u32 = 20_000;

/// How often it is then asked what is expected, before something else is said.
const QUESTIONS: u32 = 10;

/// The rounds of a watchdog.
#[derive(Drop)]
struct Rounds<'a, R> {
    rt: &'a R,
    hall: &'a Hall<Threshold, KeepMany>,
    watchdog: &'a mut Watchdog,
    own: &'a mut Seat<Threshold, KeepMany>,
    ghost fits: { IsOf hall.now own.now },
}

impl<R: Wait> Rounds<'_, R> {
    fn have_one(&mut self) {
        let _ = self.watchdog.round(self.rt, &At(0), self.hall, self.own);
    }
}

/// Has rounds until all is said.
fn have_rounds_over<R: Wait>(
    rt: &R,
    hall: &Hall<Threshold, KeepMany>,
    watchdog: &mut Watchdog,
    own: &mut Seat<Threshold, KeepMany>,
    ended: &AtomicBool,
)
    requires { IsOf hall.now own.old }
{
    let mut rounds = Rounds {
        rt,
        hall,
        watchdog,
        own,
    };
    for _ in rt.forever() {
        if ended.load(Ordering::SeqCst) {
            return;
        }
        rounds.have_one();
    }
}

fn have_rounds<R: Wait + Abort>(
    rt: &R,
    alloc: Global,
    expectations: &Arc<Expectations>,
    ended: &AtomicBool,
) {
    let mut watchdog = watchdog_by(rt, alloc, expectations);
    let names = catalogue(rt, alloc, &["a", ""]);
    let made = Hall::<Threshold, KeepMany>::new(alloc, names, 100, 1);
    let (hall, mut seats) = made.expect(rt, "a hall");
    let mut own = seats.pop().expect(rt, "a seat");
    have_rounds_over(rt, &hall, &mut watchdog, &mut own, ended);
}

/// Whether it is told at each of some questions that the service is expected so often.
fn is_told(expectations: &Expectations, slot: Slot, seconds: u32) -> bool {
    for _ in 0..QUESTIONS {
        if expectations.seconds(slot) != Some(seconds) {
            return false;
        }
    }
    true
}

/// Says again and again that the service is expected at another number of seconds, and tells how often something else is expected then.
fn say_all(expectations: &Expectations, slot: Slot, ended: &AtomicBool) -> u32 {
    let mut lost = 0u32;
    for turn in 0..TIMES {
        let seconds = if turn % 2 == 0 { 1 } else { 2 };
        expectations.expect(slot, Wish { seconds, behind: 0 });
        if !is_told(expectations, slot, seconds) {
            lost = lost.saturating_add(1);
        }
    }
    ended.store(true, Ordering::SeqCst);
    lost
}

#[test]
fn nothing_is_lost_that_is_said_while_the_watchdog_takes_over_what_was_said(rt: HostRuntime) {
    let alloc = rt.alloc();
    let slot = Slot::new(0).expect(&rt, "a slot");
    let expectations = expectations(&rt, alloc);
    let ended = AtomicBool::new(false);
    let (lost, _) = thread::join(
        &rt,
        || say_all(&expectations, slot, &ended),
        || have_rounds(&rt, alloc, &expectations, &ended),
    );
    same(&rt, &lost, &0, &"lost");
}
