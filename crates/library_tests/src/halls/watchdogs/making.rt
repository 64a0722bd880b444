//! Watchdogs of tests, and their rounds.

ghost use Rattle.hall.specs.Seats.{IsOf};

use crate::same::same;
use desk_core::KeepMany;
use hall::{Hall, Seat};
use probe_core::Threshold;
use std::alloc::Global;
use std::process::Abort;
use std::sync::{Arc, Wait};
use std::time::Clock;
use watchdog::{Expectations, Watchdog};

/// Nothing is expected yet.
pub(crate) fn expectations(rt: &impl Abort, alloc: Global) -> Arc<Expectations> {
    let expectations = Expectations::new(alloc).expect(rt, "memory");
    let shared: Result<Arc<Expectations>, _> = Arc::new(alloc, expectations);
    shared.expect(rt, "memory")
}

/// A watchdog that takes over what is expected.
pub(crate) fn watchdog_by(
    rt: &impl Abort,
    alloc: Global,
    expectations: &Arc<Expectations>,
) -> Watchdog {
    let handle: Result<Arc<Expectations>, _> = expectations.clone();
    let made = Watchdog::new(alloc, handle.expect(rt, "a handle"));
    made.expect(rt, "memory")
}

/// Has a round by this clock, and compares whether it changes a status, and for how many milliseconds the next one may be away.
pub(crate) fn expect_round<R: Wait + Abort, C: Clock>(
    rt: &R,
    hall: &Hall<Threshold, KeepMany>,
    watchdog: &mut Watchdog,
    own: &mut Seat<Threshold, KeepMany>,
    clock: &C,
    shows: bool,
    patience: u64,
)
    requires own { IsOf hall.now own.old }
    ensures own { IsOf hall.now own.new }
{
    let round = watchdog.round(rt, clock, hall, own).expect(rt, "a round");
    same(rt, &round.shows, &shows, &round.at);
    let found = watchdog.patience(round.at).as_millis();
    same(rt, &found, &u128::from(patience), &round.at);
}
