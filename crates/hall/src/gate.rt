ghost use Rattle.std.specs.Prelude.{◌≡◌, ◌+◌, ◌≤◌, ◌<◌, ◌%◌, ◌^◌, ℕ, [], ◌∷◌, length};
ghost use Rattle.desk_core.specs.Legal.{IsLegal};
ghost use Rattle.desk_core.specs.Past.{past};
ghost use Rattle.hall.specs.declared.view.GateStage.TheVariants.{Queued};
ghost use Rattle.hall.specs.Views.{at_stage, seat_view};
ghost use Rattle.hall.specs.Steps.{IsHall, Rests, HasDesk, Follows, Looked, number_in, seen_in};

use crate::steps::{Commit, Draw, GateSeat, Look, Making, Pass, Shared, Turn};
use desk_core::{Desk, Entry, Keep};
use probe_core::Probe;
use std::marker::Brand;
use std::sync::Wait;
use std::thread::yield_now;

/// The word of the board.
const BOARD: usize = 0;

/// The word that counts the tickets drawn, modulo 2^64.
const DRAWN: usize = 1;

/// The word of the ticket that is served, modulo 2^64.
const SERVED: usize = 2;

/// The slot of the desk.
pub(crate) const DESK: usize = 0;

/// How often a waiting call looks before it yields the processor at each look.
const SPINS: u32 = 100;

/// Waits until the seat's turn comes, and takes the desk.
pub(crate) fn enter<P: Probe, K: Keep, R: Wait>(
    rt: &R,
    shared: &Shared<P, K>,
    place: &mut GateSeat<P, K>,
) -> Desk<P, K>
    requires table { IsHall shared.now.table_id × (place.old.table_id ≡ shared.now.table_id) }
    requires rests { Rests place.old.me }
    ensures place { place.new.table_id ≡ place.old.table_id }
    ensures limit { result.max_entries ≡ place.old.me.0.most }
    ensures room { length result.journal ≤ result.max_entries }
    ensures desk { HasDesk place.new.me (number_in place.old.me) place.old.me.0.most
        (past result.journal) }
    ensures follows { Follows (number_in place.old.me) (seen_in place.old.me)
        (past result.journal) }
{
    let ticket = draw(shared, place);
    let mut looks: u32 = 0;
    for _ in rt.forever() {
        if shared.load::<Turn>(place, SERVED) == ticket {
            let slot = shared.exchange(place, DESK, None);
            look(shared, place);
            return slot.unwrap();
        }
        if looks < SPINS {
            looks += 1;
        } else {
            yield_now();
        }
    }
    unreachable!()
}

/// Reads the board.
pub(crate) fn look<P: Probe, K: Keep>(shared: &Shared<P, K>, place: &mut GateSeat<P, K>) -> u64
    requires table { IsHall shared.now.table_id × (place.old.table_id ≡ shared.now.table_id) }
    ensures place { place.new.table_id ≡ place.old.table_id }
    ensures looked { Looked place.old.me result place.new.me }
{
    shared.load::<Look>(place, BOARD)
}

fn draw<P: Probe, K: Keep>(shared: &Shared<P, K>, place: &mut GateSeat<P, K>) -> u64
    requires table { IsHall shared.now.table_id × (place.old.table_id ≡ shared.now.table_id) }
    requires rests { Rests place.old.me }
    ensures place { place.new.table_id ≡ place.old.table_id }
    ensures ticket { (ticket : ℕ) × (result ≡ ticket % 2 ^ 64)
        × (place.new.me ≡ (at_stage place.old.me.0 (Queued ticket), [])) }
{
    shared.fetch_add::<Draw>(place, DRAWN, 1)
}

/// Stores the board of a desk whose newest entry is this one.
fn commit<P: Probe, K: Keep, J: Making>(
    shared: &Shared<P, K>,
    place: &mut GateSeat<P, K>,
    entry: Entry,
    desk: &Desk<P, K>,
)
    requires entry { J.made ≡ entry }
    requires table { IsHall shared.now.table_id × (place.old.table_id ≡ shared.now.table_id) }
    requires desk { HasDesk place.old.me entry.seat desk.now.max_entries (seen_in place.old.me) }
    requires made { past desk.now.journal ≡ entry ∷ seen_in place.old.me }
    ensures place { place.new.table_id ≡ place.old.table_id }
    ensures desk { HasDesk place.new.me entry.seat desk.now.max_entries (past desk.now.journal) }
    ensures legal { IsLegal (past desk.now.journal) }
    ensures room { length desk.now.journal ≤ desk.now.max_entries }
{
    shared.store::<Commit<J>>(place, BOARD, desk.board());
}

/// Commits the newest entry of the desk, counts it, gives the desk back and passes the turn.
pub(crate) fn finish<P: Probe, K: Keep>(
    shared: &Shared<P, K>,
    place: &mut GateSeat<P, K>,
    made: &mut u64,
    desk: Desk<P, K>,
    entry: Entry,
)
    requires table { IsHall shared.now.table_id × (place.old.table_id ≡ shared.now.table_id) }
    requires desk { HasDesk place.old.me entry.seat desk.max_entries (seen_in place.old.me) }
    requires newest { past desk.journal ≡ entry ∷ seen_in place.old.me }
    requires limit { (made.old ≤ length (seen_in place.old.me))
        × (length (seen_in place.old.me) < 2 ^ 32) }
    ensures place { place.new.table_id ≡ place.old.table_id }
    ensures rests { place.new.me
        ≡ (seat_view entry.seat (past desk.journal) desk.max_entries, []) }
    ensures made { made.new ≡ made.old + 1 }
    ensures legal { IsLegal (past desk.journal) }
    ensures room { length desk.journal ≤ desk.max_entries }
{
    commit::<P, K, Brand>(shared, place, entry, &desk);
    leave(shared, place, desk);
    *made += 1;
}

/// Gives the desk back, and passes the turn.
pub(crate) fn leave<P: Probe, K: Keep>(
    shared: &Shared<P, K>,
    place: &mut GateSeat<P, K>,
    desk: Desk<P, K>,
)
    requires table { IsHall shared.now.table_id × (place.old.table_id ≡ shared.now.table_id) }
    requires desk { HasDesk place.old.me (number_in place.old.me) desk.max_entries
        (past desk.journal) }
    ensures place { place.new.table_id ≡ place.old.table_id }
    ensures rests { place.new.me
        ≡ (seat_view (number_in place.old.me) (past desk.journal) desk.max_entries, []) }
{
    // The slot is empty, so nothing is dropped while the desk is held.
    let None = shared.exchange(place, DESK, Some(desk)) else {
        unreachable!()
    };
    shared.fetch_add::<Pass>(place, SERVED, 1);
}
