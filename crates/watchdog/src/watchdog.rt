//! A watchdog over all services of a hall.

use crate::expectations::Expectations;
use crate::found::{Found, find, is_any_awake};
use crate::guard::Guard;
use crate::steps::{go_on_all, look_all, take_wishes, tell_periods};
use chronicle::{Who, wall_micros};
use desk_core::{Entry, Keep, Slot};
use hall::{Hall, Seat};
use probe_core::Probe;
use std::alloc::{AllocError, Global};
use std::io;
use std::sync::{Arc, Wait};
use std::time::{Clock, Duration, Instant};

/// How many entries are looked at together, with one pass through the gate.
const BATCH: usize = 4_096;

/// How many milliseconds the next round may be away while something is expected: so an expiry is at most a tenth of a second late, also
/// where a report is seen as late as this.
const TICK_MILLIS: u64 = 50;

/// How many milliseconds it may be away else.
const IDLE_MILLIS: u64 = 1_000;

/// What a round came to.
#[derive(Clone, Copy)]
pub struct Round {
    /// The reading of the clock by which it was had.
    pub at: Instant,
    /// Whether the status of a service changed.
    pub shows: bool,
}

/// Watches over the services that are expected to be heard, with a seat of its own, and brings down those that are not.
///
/// What a service was told by, be it a session or a script, it learns from the journal. It sees an entry in the first round behind it.
pub struct Watchdog {
    guards: Vec<Guard>,
    /// Room for a batch of entries.
    entries: Vec<Entry>,
    /// Whether there may be more to see at once.
    has_more: bool,
    expectations: Arc<Expectations>,
}

impl Drop for Watchdog {
    fn drop(self) {
        let Watchdog {
            guards: _,
            entries: _,
            has_more: _,
            expectations: _,
        } = self;
    }
}

impl Watchdog {
    ghost use Rattle.std.specs.Prelude.{◌≡◌, ◌<◌, ℕ, length, IfErr, IfOk};
    ghost use Rattle.std.specs.List.{slice_index_or};
    ghost use Rattle.hall.specs.Seats.{IsOf};
    ghost use Rattle.watchdog.specs.Guard.{GuardState, fresh};
    ghost use Rattle.watchdog.specs.Watching.{HasHadRound, HasMissedRound, guards_of};

    /// A watchdog over sixteen slots, of which sessions and scripts say what is expected. It takes all memory that it needs.
    pub fn new(alloc: Global, expectations: Arc<Expectations>) -> Result<Watchdog, AllocError>
        ensures count { IfOk result (λ watchdog. length (guards_of watchdog) ≡ 16) }
        ensures fresh { IfOk result (λ watchdog. (slot : ℕ) (other : GuardState)
            → slot < 16 → slice_index_or (guards_of watchdog) slot other ≡ fresh slot) }
    {
        let mut guards = Vec::with_capacity(alloc, usize::from(Slot::COUNT))?;
        for number in 0..Slot::COUNT {
            guards.push(Guard::new(Slot::new(number).unwrap()))?;
        }
        Ok(Watchdog {
            guards,
            entries: Vec::with_capacity(alloc, BATCH)?,
            has_more: false,
            expectations,
        })
    }

    /// How long the next round may be away from this one.
    pub fn patience(&self, now: Instant) -> Duration {
        if self.has_more {
            return Duration::from_millis(0);
        }
        if !is_any_awake(&self.guards) {
            return Duration::from_millis(IDLE_MILLIS);
        }
        let mut patience = Duration::from_millis(TICK_MILLIS);
        for guard in &self.guards {
            if let Some(due) = guard.due() {
                patience = patience.min(due.saturating_duration_since(now));
            }
        }
        patience
    }

    /// Sees what has come, reads the clock, and brings the services down that are overdue then. So what is seen counts from a reading on that
    /// is not before it came, and nothing is brought down early. Where the clock cannot be read, that is left to the next round.
    pub fn round<R: Wait, C: Clock, P: Probe, K: Keep>(
        &mut self,
        rt: &R,
        clock: &C,
        hall: &Hall<P, K>,
        seat: &mut Seat<P, K>,
    ) -> io::Result<Round>
        requires ours { IsOf hall.now seat.old }
        ensures had { IfOk result (λ round. HasHadRound K.kept round.at (guards_of self.old) seat.old
            (guards_of self.new) seat.new) }
        ensures missed { IfErr result (λ error. HasMissedRound (guards_of self.old) seat.old
            (guards_of self.new) seat.new) }
        ensures ours { IsOf hall.now seat.new }
    {
        let Watchdog {
            guards,
            entries,
            has_more,
            expectations,
        } = self;
        take_wishes(guards, expectations);
        let found = find(rt, hall, seat, guards, entries);
        *has_more = entries.len() >= BATCH || matches!(found, Found::Forgotten { .. });
        let at = Instant::now(clock)?;
        go_on_all(seat.number(), guards, found, entries, at);
        tell_periods(guards, expectations);
        let micros = wall_micros(clock);
        let chronicle = expectations.chronicle();
        chronicle.sit(seat.number(), micros, Who::Expiry);
        let shows = look_all(rt, hall, seat, guards, expectations, at, micros);
        Ok(Round { at, shows })
    }
}
