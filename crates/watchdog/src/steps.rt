//! The steps of a watchdog with all its guards.

ghost use Rattle.std.specs.Prelude.{◌≡◌, length, take, drop, Option, ℕ};
ghost use Rattle.std.specs.List.{All};
ghost use Rattle.desk_core.specs.Past.{past};
ghost use Rattle.hall.specs.Seats.{IsOf, SeatState};
ghost use Rattle.watchdog.specs.Found.{IsFound};
ghost use Rattle.watchdog.specs.Watching.{HaveStepped, HaveWished, IsStep, WasLooked};

use crate::expectations::Expectations;
use crate::found::Found;
use crate::guard::Guard;
use crate::scribe::Scribe;
use desk_core::{Entry, Keep};
use hall::{Hall, Seat};
use probe_core::Probe;
use std::sync::Wait;
use std::time::Instant;

/// Takes over what sessions have said is expected.
pub(crate) fn take_wishes(guards: &mut Vec<Guard>, expectations: &Expectations)
    ensures { HaveWished guards.old.items guards.new.items }
{
    for place in 0..guards.len() {
        if let Some(wish) = expectations.take(guards[place].slot()) {
            guards[place].wish(wish);
        }
    }
}

/// Has the guards go on, by the seat of this number, to where they were found to.
pub(crate) fn go_on_all(
    number: u16,
    guards: &mut Vec<Guard>,
    found: Found,
    entries: &[Entry],
    now: Instant,
)
    ensures { (kept : Option ℕ) (seat : SeatState) → seat.number ≡ number
        → IsFound kept entries.now seat found
        → HaveStepped kept now guards.old.items seat guards.new.items seat }
{
    for index in 0..guards.len() {
        go_on_one(number, &mut guards[index], found, entries, now);
    }
}

fn go_on_one(number: u16, guard: &mut Guard, found: Found, entries: &[Entry], now: Instant)
    ensures { (kept : Option ℕ) (seat : SeatState) → seat.number ≡ number
        → IsFound kept entries.now seat found
        → IsStep kept now guard.old seat guard.new seat }
{
    match found {
        Found::Asleep { end } => {
            if !guard.is_awake() {
                guard.pass(end);
            }
        }
        Found::Next { place } => follow_from(number, guard, place, entries, now),
        Found::Forgotten { place, end } => {
            if guard.place() == place {
                guard.skip(now, end);
            }
        }
    }
}

/// Has a guard see those of the entries behind this place that it has not seen, if it stands among them.
fn follow_from(number: u16, guard: &mut Guard, place: u64, entries: &[Entry], now: Instant)
    ensures { (kept : Option ℕ) (seat : SeatState) → seat.number ≡ number
        → entries.now ≡ take (length entries.now) (drop place (past seat.seen))
        → IsStep kept now guard.old seat guard.new seat }
{
    let count = entries.len() as u64;
    let Some(seen) = guard.place().checked_sub(place) else {
        return;
    };
    if seen <= count && place.checked_add(count).is_some() {
        guard.follow(number, now, &entries[seen as usize..]);
    }
}

/// Brings the services down that are overdue at this reading, and tells whether a status changed.
pub(crate) fn look_all<R: Wait, P: Probe, K: Keep>(
    rt: &R,
    hall: &Hall<P, K>,
    seat: &mut Seat<P, K>,
    guards: &mut Vec<Guard>,
    expectations: &Expectations,
    now: Instant,
    micros: u64,
) -> bool
    requires ours { IsOf hall.now seat.old }
    ensures steps { HaveStepped K.kept now guards.old.items seat.old guards.new.items
        seat.new }
    ensures all { All (WasLooked now) guards.new.items }
    ensures ours { IsOf hall.now seat.new }
{
    let mut shows = false;
    for index in 0..guards.len() {
        shows |= look_one(
            rt,
            hall,
            seat,
            &mut guards[index],
            expectations,
            now,
            micros,
        );
    }
    shows
}

fn look_one<R: Wait, P: Probe, K: Keep>(
    rt: &R,
    hall: &Hall<P, K>,
    seat: &mut Seat<P, K>,
    guard: &mut Guard,
    expectations: &Expectations,
    now: Instant,
    micros: u64,
) -> bool
    requires ours { IsOf hall.now seat.old }
    ensures step { IsStep K.kept now guard.old seat.old guard.new seat.new }
    ensures looked { WasLooked now guard.new }
    ensures ours { IsOf hall.now seat.new }
{
    let scribe = Scribe {
        chronicle: expectations.chronicle(),
        micros,
    };
    let Some(fall) = guard.look(rt, hall, seat, now, scribe) else {
        return false;
    };
    if fall.made {
        expectations.count();
    }
    fall.shows
}

/// Tells those who ask how often services have to be heard.
pub(crate) fn tell_periods(guards: &[Guard], expectations: &Expectations) {
    for guard in guards {
        expectations.follow(guard.slot(), guard.period());
    }
}
