//! The guard of one service.

ghost use Rattle.std.specs.Prelude.{◌≡◌};
ghost use Rattle.watchdog.specs.Guard.{met_by, met_in};

use crate::falling::{Fall, bring_down};
use crate::scribe::Scribe;
use crate::timer::Timer;
use crate::wish::Wish;
use desk_core::{Entry, Keep, Slot};
use hall::{Hall, Seat};
use probe_core::Probe;
use std::marker::Model;
use std::sync::Wait;
use std::time::Instant;

/// What is expected of one service, and how far its guard has seen the journal.
#[derive(Drop)]
pub struct Guard {
    slot: Slot,
    timer: Timer,
    /// What is expected from a later place of the journal on.
    wish: Option<Wish>,
    place: u64,
}

impl Model for Guard {
    ghost use Rattle.watchdog.specs.Guard.{GuardState};

    ghost Value = { GuardState };

    ghost view = { λ guard. record {
      slot = guard.slot;
      met = guard.timer;
      wish = guard.wish;
      place = guard.place;
    } };
}

impl Guard {
    ghost use Rattle.std.specs.Prelude.{◌≡◌, ◌+◌, ◌<◌, ◌^◌, [], None, true, false, length, IfSome, IfNone, IsFalse, option_map};
    ghost use Rattle.std.specs.Time.{instant_nanos};
    ghost use Rattle.hall.specs.Seats.{IsOf};
    ghost use Rattle.watchdog.specs.Timer.{due_at, is_overdue, period_of};
    ghost use Rattle.watchdog.specs.Falling.{HasFallen};
    ghost use Rattle.watchdog.specs.Guard.{followed, fresh, looked, passed, refused, skipped, wishing};

    /// The guard of a service of which nothing is expected, from the beginning of the journal on.
    pub(crate) fn new(slot: Slot) -> Guard
        ensures { result ≡ fresh slot }
    {
        Guard {
            slot,
            timer: Timer::new(),
            wish: None,
            place: 0,
        }
    }

    pub(crate) fn slot(&self) -> Slot
        ensures { result ≡ self.now.slot }
    {
        self.slot
    }

    pub(crate) fn place(&self) -> u64
        ensures { result ≡ self.now.place }
    {
        self.place
    }

    /// Whether something is expected, or will be.
    pub(crate) fn is_awake(&self) -> bool
        ensures asleep { IsFalse result
            → (self.now.wish ≡ None) × (period_of self.now.met ≡ None) }
    {
        self.wish.is_some() || self.timer.period().is_some()
    }

    /// At least every how many seconds the service has to be heard, if it is expected to be.
    pub(crate) fn period(&self) -> Option<u32> {
        self.timer.period()
    }

    /// From which reading on a look may find the service overdue, if it may.
    pub(crate) fn due(&self) -> Option<Instant>
        ensures { option_map instant_nanos result ≡ due_at self.now.met }
    {
        self.timer.due()
    }

    /// Takes over what is expected, once it comes to its place. What stands behind that place counts for it, so it is seen again where it
    /// has been seen.
    pub(crate) fn wish(&mut self, wish: Wish)
        ensures { self.new ≡ wishing wish self.old }
    {
        let behind = u64::from(wish.behind);
        self.timer.end();
        self.wish = Some(wish);
        if behind <= self.place {
            self.place = behind;
        }
    }

    /// Goes on to a place of the journal, where nothing is expected.
    pub(crate) fn pass(&mut self, place: u64)
        ensures { self.new ≡ passed place self.old }
    {
        self.place = place;
    }

    /// Goes on to a place of the journal, where entries before it are forgotten.
    pub(crate) fn skip(&mut self, now: Instant, place: u64)
        ensures { self.new ≡ skipped now place self.old }
    {
        self.timer.hear(now);
        self.place = place;
    }

    /// Sees the next entries of the journal at this reading, by the watchdog's seat of this number.
    pub(crate) fn follow(&mut self, seat: u16, now: Instant, entries: &[Entry])
        requires { self.old.place + length entries.now < 2 ^ 64 }
        ensures { self.new ≡ followed seat now entries.now self.old }
    {
        let behind = self.place + entries.len() as u64;
        match self.wish {
            Some(wish) if u64::from(wish.behind) <= behind => {
                let before = u64::from(wish.behind).saturating_sub(self.place) as usize;
                meet(&mut self.timer, seat, self.slot, now, &entries[..before]);
                self.timer.expect(now, wish.seconds);
                meet(&mut self.timer, seat, self.slot, now, &entries[before..]);
                self.wish = None;
            }
            Some(_) | None => meet(&mut self.timer, seat, self.slot, now, entries),
        }
        self.place = behind;
    }

    /// Brings the service down if it is overdue at this reading. Where a fail is refused, it is tried again a second later.
    pub(crate) fn look<R: Wait, P: Probe, K: Keep>(
        &mut self,
        rt: &R,
        hall: &Hall<P, K>,
        seat: &mut Seat<P, K>,
        now: Instant,
        scribe: Scribe<'_>,
    ) -> Option<Fall>
        requires ours { IsOf hall.now seat.old }
        ensures early { IfNone result (is_overdue self.old.met (instant_nanos now) ≡ false) }
        ensures waits { IfNone result ((self.new ≡ looked now self.old) × (seat.new ≡ seat.old)) }
        ensures due { IfSome result (λ fall. is_overdue self.old.met (instant_nanos now) ≡ true) }
        ensures fell { IfSome result (λ fall. HasFallen K.kept self.old.slot self.old.place
            seat.old seat.new fall.made fall.is_refused) }
        ensures down { IfSome result (λ fall. fall.is_refused ≡ false
            → self.new ≡ looked now self.old) }
        ensures refused { IfSome result (λ fall. fall.is_refused ≡ true
            → self.new ≡ refused now (looked now self.old)) }
        ensures ours { IsOf hall.now seat.new }
    {
        if !self.timer.look(now) {
            return None;
        }
        let fall = bring_down(rt, hall, seat, self.slot, self.place, scribe);
        if fall.is_refused {
            self.timer.refuse(now);
        }
        Some(fall)
    }
}

/// Has a timer meet entries of the journal, as the seat of this number sees them at this reading.
fn meet(timer: &mut Timer, seat: u16, slot: Slot, now: Instant, entries: &[Entry])
    ensures { timer.new ≡ met_in seat slot now entries.now timer.old }
{
    for entry in entries {
        meet_one(timer, seat, slot, now, entry);
    }
}

fn meet_one(timer: &mut Timer, seat: u16, slot: Slot, now: Instant, entry: &Entry)
    ensures { timer.new ≡ met_by seat slot now entry.now timer.old }
{
    if entry.begins(seat, slot) {
        timer.hear(now);
    } else if entry.ends(slot) {
        timer.end();
    }
}
