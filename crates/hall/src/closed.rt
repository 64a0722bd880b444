ghost use Rattle.std.specs.Prelude.{◌≡◌, ◌<◌, [], length, map};
ghost use Rattle.std.specs.List.{All};
ghost use Rattle.hall.specs.declared.view.GateStage.TheVariants.{Idle};
ghost use Rattle.hall.specs.Seats.{held_of};
ghost use Rattle.hall.specs.Steps.{IsHall};

use crate::gate::DESK;
use crate::hall::Hall;
use crate::seat::Seat;
use crate::steps::{GateSeat, Gather, Shared};
use desk_core::{Catalogue, Desk, Keep, KeepAll};
use probe_core::Probe;

/// What is left of a hall that was closed.
#[derive(Drop)]
pub struct Closed<P: Probe, K: Keep = KeepAll> {
    /// The registry, with its journal and its probes.
    pub desk: Desk<P, K>,
    pub catalogue: Catalogue,
    /// Whether the registry has a store.
    pub is_stored: bool,
}

/// A hall that was not closed, since some of its seats were missing.
#[derive(Drop)]
pub struct Unclosed<P: Probe, K: Keep = KeepAll> {
    pub hall: Hall<P, K>,
    /// The seats that were given, in their order.
    pub seats: Vec<Seat<P, K>>,
}

impl<P: Probe, K: Keep> Hall<P, K> {
    ghost use Rattle.std.specs.Prelude.{◌≡◌, ◌≢◌, length, IfOk, IfErr};
    ghost use Rattle.std.specs.List.{All, sum_by};
    ghost use Rattle.desk_core.specs.Legal.{IsLegal};
    ghost use Rattle.desk_core.specs.Past.{past};
    ghost use Rattle.hall.specs.Seats.{IsOf, IsSeenIn, own_calls};
    ghost use Rattle.hall.specs.TakenBack.{NothingTakenBack};

    /// The desk of a hall whose seats have all come back. Where one is missing, all is handed back.
    pub fn close(self, seats: Vec<Seat<P, K>>) -> Result<Closed<P, K>, Unclosed<P, K>>
        requires { All (IsOf self) seats.items }
        ensures closed { IfOk result (λ closed. length seats.items ≡ self.seats) }
        ensures unclosed { IfErr result (λ unclosed. (length seats.items ≢ self.seats)
            × (unclosed.hall ≡ self) × (unclosed.seats.items ≡ seats.items)) }
        ensures kept { IfOk result (λ closed.
            (closed.catalogue ≡ self.names) × (closed.desk.max_entries ≡ self.most)) }
        ensures legal { IfOk result (λ closed. IsLegal (past closed.desk.journal)) }
        ensures stored { IfOk result (λ closed. closed.is_stored ≡ closed.desk.is_stored) }
        ensures taken_back { IfOk result (λ closed. NothingTakenBack closed.desk seats.items) }
        ensures seats { IfOk result (λ closed.
            All (IsSeenIn (past closed.desk.journal)) seats.items) }
        ensures counted { IfOk result (λ closed.
            length closed.desk.journal ≡ sum_by (λ seat. length (own_calls seat)) seats.items) }
    {
        if seats.len() != self.seats as usize {
            return Err(Unclosed { hall: self, seats });
        }
        let (table, catalogue) = self.into_parts();
        let place = gather(&table.shared, seats);
        let mut closed = table.close_with(place);
        let slot = closed.take(DESK);
        closed.free();
        let desk = slot.unwrap();
        let is_stored = desk.is_stored();
        Ok(Closed {
            desk,
            catalogue,
            is_stored,
        })
    }
}

/// One view for all seats.
fn gather<P: Probe, K: Keep>(shared: &Shared<P, K>, seats: Vec<Seat<P, K>>) -> GateSeat<P, K>
    requires table { IsHall shared.now.table_id }
    requires seats { All (λ seat. seat.table ≡ shared.now.table_id) seats.items }
    requires some { 0 < length seats.items }
    ensures table { result.table_id ≡ shared.now.table_id }
    ensures idle { (result.me.0.stage ≡ Idle) × (result.me.1 ≡ []) }
    ensures seats { result.me.0.seats ≡ map held_of seats.items }
{
    let mut seats = seats.into_iter();
    let Some(first) = seats.next() else {
        unreachable!()
    };
    // Every field is named, here and below: a new one, from which something could be answered, fails to compile here.
    let Seat {
        mut place,
        number: _,
        made: _,
    } = first;
    for seat in seats {
        let Seat {
            place: other,
            number: _,
            made: _,
        } = seat;
        shared.join_seat::<Gather>(&mut place, other);
    }
    place
}
