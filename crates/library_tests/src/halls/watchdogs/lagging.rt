//! Watchdogs to which more reports have come than they see in a round, or than are kept.

ghost use Rattle.hall.specs.Seats.{IsOf};

use crate::halls::watchdogs::making::{expect_round, expectations, watchdog_by};
use crate::halls::watchdogs::reading::At;
use crate::names::catalogue;
use desk_core::{Finding, KeepMany};
use hall::{Hall, Seat};
use probe_core::{Start, Threshold};
use std::alloc::Global;
use std::process::Abort;
use std::sync::Wait;
use watchdog::{Expectations, Watchdog, Wish};

/// Whoever reports passes of `a`.
#[derive(Drop)]
struct Reporter<'a, R> {
    rt: &'a R,
    hall: &'a Hall<Threshold, KeepMany>,
    seat: &'a mut Seat<Threshold, KeepMany>,
    ghost fits: { IsOf hall.now seat.now },
}

impl<R: Wait> Reporter<'_, R> {
    fn report(&mut self) {
        let _ = self.hall.observe(self.rt, self.seat, "a", Finding::Pass);
    }
}

/// Reports so many passes of `a`.
fn report<R: Wait>(
    rt: &R,
    hall: &Hall<Threshold, KeepMany>,
    seat: &mut Seat<Threshold, KeepMany>,
    passes: u32,
)
    requires { IsOf hall.now seat.old }
{
    let mut reporter = Reporter { rt, hall, seat };
    for _ in 0..passes {
        reporter.report();
    }
}

/// Has `a` registered, and expected every second.
fn set_up<R: Wait + Abort>(
    rt: &R,
    hall: &Hall<Threshold, KeepMany>,
    seat: &mut Seat<Threshold, KeepMany>,
    expectations: &Expectations,
)
    requires { IsOf hall.now seat.old }
    ensures { IsOf hall.now seat.new }
{
    let slot = hall.catalogue().slot("a").expect(rt, "a slot");
    let wish = Wish {
        seconds: 1,
        behind: 1,
    };
    let _ = hall.register(rt, seat, "a", Threshold::new(1, 1, Start::Up));
    expectations.expect(slot, wish);
}

/// So many passes come at once, and the round that finds them puts off the next one for so many milliseconds. `a` falls a second after it.
fn play_over<R: Wait + Abort>(
    rt: &R,
    hall: &Hall<Threshold, KeepMany>,
    own: &mut Seat<Threshold, KeepMany>,
    others: &mut Seat<Threshold, KeepMany>,
    watchdog: &mut Watchdog,
    passes: u32,
    patience: u64,
)
    requires own { IsOf hall.now own.old }
    requires others { IsOf hall.now others.old }
{
    expect_round(rt, hall, watchdog, own, &At(0), false, 50);
    report(rt, hall, others, passes);
    expect_round(rt, hall, watchdog, own, &At(500), false, patience);
    expect_round(rt, hall, watchdog, own, &At(1_499), false, 1);
    expect_round(rt, hall, watchdog, own, &At(1_500), true, 50);
}

fn play<R: Wait + Abort>(rt: &R, alloc: Global, passes: u32, patience: u64) {
    let expectations = expectations(rt, alloc);
    let mut watchdog = watchdog_by(rt, alloc, &expectations);
    let names = catalogue(rt, alloc, &["a", ""]);
    let made = Hall::<Threshold, KeepMany>::new(alloc, names, u32::MAX, 2);
    let (hall, mut seats) = made.expect(rt, "a hall");
    let mut others = seats.pop().expect(rt, "a seat");
    let mut own = seats.pop().expect(rt, "a seat");
    set_up(rt, &hall, &mut others, &expectations);
    play_over(
        rt,
        &hall,
        &mut own,
        &mut others,
        &mut watchdog,
        passes,
        patience,
    );
}

#[test]
fn a_round_that_sees_less_than_4096_entries_has_seen_all(rt: HostRuntime) {
    play(&rt, rt.alloc(), 4_095, 50);
}

#[test]
fn a_round_that_sees_4096_entries_is_followed_by_another_at_once(rt: HostRuntime) {
    play(&rt, rt.alloc(), 4_096, 0);
}

/// One of the passes is forgotten. Whoever cannot know what it was takes it for a report.
#[test]
fn entries_that_were_forgotten_before_they_were_seen_count_as_a_report(rt: HostRuntime) {
    play(&rt, rt.alloc(), 65_537, 0);
}
