//! What a round finds of the journal before it reads the clock.

ghost use Rattle.hall.specs.Looking.{HasLooked};
ghost use Rattle.hall.specs.Seats.{IsOf};
ghost use Rattle.std.specs.Prelude.{◌≡◌, length};
ghost use Rattle.watchdog.specs.Found.{IsFound};

use crate::guard::Guard;
use desk_core::{Entry, Keep, board_entries};
use hall::{Hall, Seat};
use probe_core::Probe;
use std::sync::Wait;

/// Where guards may go on to.
#[derive(Clone, Copy)]
pub enum Found {
    /// Nothing is expected: to the end of the journal.
    Asleep { end: u64 },
    /// Behind the next entries, which were copied from this place on.
    Next { place: u64 },
    /// From this place, behind which an entry is forgotten, to the end.
    Forgotten { place: u64, end: u64 },
}

/// Finds where the guards may go on to, and copies the entries that they are to see.
pub(crate) fn find<R: Wait, P: Probe, K: Keep>(
    rt: &R,
    hall: &Hall<P, K>,
    seat: &mut Seat<P, K>,
    guards: &[Guard],
    entries: &mut Vec<Entry>,
) -> Found
    requires ours { IsOf hall.now seat.old }
    ensures looked { HasLooked seat.old seat.new }
    ensures found { IsFound K.kept entries.new.items seat.new result }
    ensures ours { IsOf hall.now seat.new }
{
    entries.clear();
    if !is_any_awake(guards) {
        let end = end_of_journal(hall, seat);
        return Found::Asleep { end };
    }
    let place = least_place(guards);
    if hall.copy_entries(rt, seat, place, entries) {
        return Found::Next { place };
    }
    let end = end_of_journal(hall, seat);
    Found::Forgotten { place, end }
}

/// Whether something is expected of a service, or will be.
pub(crate) fn is_any_awake(guards: &[Guard]) -> bool {
    guards.iter().any(|guard| guard.is_awake())
}

/// The place up to which all guards have seen the journal.
fn least_place(guards: &[Guard]) -> u64 {
    let mut least = u64::MAX;
    for guard in guards {
        least = least.min(guard.place());
    }
    least
}

/// The place behind all entries that there are by now.
fn end_of_journal<P: Probe, K: Keep>(hall: &Hall<P, K>, seat: &mut Seat<P, K>) -> u64
    requires ours { IsOf hall.now seat.old }
    ensures looked { HasLooked seat.old seat.new }
    ensures end { result ≡ length seat.new.seen }
    ensures ours { IsOf hall.now seat.new }
{
    u64::from(board_entries(hall.board(seat)))
}
