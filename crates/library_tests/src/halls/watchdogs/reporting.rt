//! What comes while the watchdog reads the clock: a report, and a question how often a service is expected to be heard.

ghost use Rattle.hall.specs.Seats.{IsOf};

use crate::halls::watchdogs::making::{expect_round, expectations, watchdog_by};
use crate::halls::watchdogs::reading::At;
use crate::names::catalogue;
use crate::same::same;
use desk_core::{Finding, KeepMany, Slot};
use hall::{Hall, Seat};
use probe_core::{Start, Threshold};
use std::alloc::Global;
use std::cell::{Cell, RefCell};
use std::io;
use std::process::Abort;
use std::sync::{Arc, Wait};
use std::time::{Clock, Duration};
use watchdog::{Expectations, Watchdog, Wish};

/// Whoever reports a pass of `a`, by a seat of its own.
#[derive(Drop)]
struct Reporter<'a, R> {
    rt: &'a R,
    hall: &'a Hall<Threshold, KeepMany>,
    seat: Seat<Threshold, KeepMany>,
    ghost fits: { IsOf hall.now seat },
}

impl<R: Wait> Reporter<'_, R> {
    fn report(&mut self) {
        let _ = self
            .hall
            .observe(self.rt, &mut self.seat, "a", Finding::Pass);
    }
}

/// A clock that stands still at so many milliseconds, and while it is read a report comes.
#[derive(Drop)]
struct Reporting<'a, R> {
    millis: u64,
    reporter: RefCell<Reporter<'a, R>>,
}

impl<R: Wait> Clock for Reporting<'_, R> {
    fn monotonic(&self) -> io::Result<Duration> {
        if let Ok(mut reporter) = self.reporter.try_borrow_mut() {
            reporter.report();
        }
        Ok(Duration::from_millis(self.millis))
    }

    fn since_1970(&self) -> io::Result<Duration> {
        self.monotonic()
    }
}

/// A clock that stands still at 0. While it is read somebody asks how often a service is expected to be heard; the wall's time is read later.
#[derive(Drop)]
struct Asking<'a> {
    expectations: &'a Arc<Expectations>,
    slot: Slot,
    told: Cell<Option<u32>>,
}

impl Clock for Asking<'_> {
    fn monotonic(&self) -> io::Result<Duration> {
        self.told.set(self.expectations.seconds(self.slot));
        Ok(Duration::from_millis(0))
    }

    fn since_1970(&self) -> io::Result<Duration> {
        Ok(Duration::from_millis(0))
    }
}

/// The report counts from the round behind it on.
fn play_over<R: Wait + Abort>(
    rt: &R,
    hall: &Hall<Threshold, KeepMany>,
    own: &mut Seat<Threshold, KeepMany>,
    others: Seat<Threshold, KeepMany>,
    watchdog: &mut Watchdog,
)
    requires own { IsOf hall.now own.old }
    requires others { IsOf hall.now others }
{
    expect_round(rt, hall, watchdog, own, &At(0), false, 50);
    let clock = Reporting {
        millis: 500,
        reporter: RefCell::new(Reporter {
            rt,
            hall,
            seat: others,
        }),
    };
    expect_round(rt, hall, watchdog, own, &clock, false, 50);
    expect_round(rt, hall, watchdog, own, &At(900), false, 50);
    expect_round(rt, hall, watchdog, own, &At(1_899), false, 1);
    expect_round(rt, hall, watchdog, own, &At(1_900), true, 50);
}

/// Has `a` be expected every second, over a new hall of which nothing was expected before. Whoever asks is told so from then on.
fn play<R: Wait + Abort>(rt: &R, alloc: Global) {
    let catalogue = catalogue(rt, alloc, &["a", ""]);
    let slot = catalogue.slot("a").expect(rt, "a slot");
    let expectations = expectations(rt, alloc);
    let mut watchdog = watchdog_by(rt, alloc, &expectations);
    let made = Hall::<Threshold, KeepMany>::new(alloc, catalogue, 100, 2);
    let (hall, mut seats) = made.expect(rt, "a hall");
    let mut others = seats.pop().expect(rt, "a seat");
    let mut own = seats.pop().expect(rt, "a seat");
    let wish = Wish {
        seconds: 1,
        behind: 1,
    };
    let _ = hall.register(rt, &mut others, "a", Threshold::new(3, 1, Start::Up));
    expect_round(rt, &hall, &mut watchdog, &mut own, &At(0), false, 1_000);
    expectations.expect(slot, wish);
    let asking = Asking {
        expectations: &expectations,
        slot,
        told: Cell::new(None),
    };
    expect_round(rt, &hall, &mut watchdog, &mut own, &asking, false, 50);
    same(rt, &asking.told.get(), &Some(1), &"told in that round");
    play_over(rt, &hall, &mut own, others, &mut watchdog);
}

#[test]
fn a_report_while_the_clock_is_read_counts_from_the_next_round_on(rt: HostRuntime) {
    play(&rt, rt.alloc());
}
