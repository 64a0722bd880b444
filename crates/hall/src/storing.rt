//! A store for a registry in which changes were made already.

use crate::gate::{enter, leave};
use crate::hall::Hall;
use crate::seat::Seat;
use desk_core::{Keep, board_entries};
use probe_core::Probe;
use std::sync::Wait;

impl<P: Probe, K: Keep> Hall<P, K> {
    ghost use Rattle.std.specs.Prelude.{◌≡◌, ◌↔◌, length, IfErr, IsOk, OnOk};
    ghost use Rattle.desk_core.specs.Left.{Holds};
    ghost use Rattle.desk_core.specs.Past.{past};
    ghost use Rattle.hall.specs.Seats.{GoesOn, IsOf, own_calls};

    /// Has the registry store each change from now on, in a store that has all those so far: as many as the seat has seen. Where there
    /// are more, the store is handed back. It waits for the seat's turn.
    pub fn store_in<R: Wait>(
        &self,
        rt: &R,
        seat: &mut Seat<P, K>,
        entries: u32,
        store: K,
    ) -> Result<(), K>
        requires ours { IsOf self.now seat.old }
        requires seen { entries ≡ length seat.old.seen }
        requires stands { K.stands store (past seat.old.seen) }
        requires holds { Holds (K.left store) (past seat.old.seen) }
        ensures goes_on { GoesOn seat.old seat.new }
        ensures kept { own_calls seat.new ≡ own_calls seat.old }
        ensures same { OnOk result (seat.new ≡ seat.old) }
        ensures current { IsOk result ↔ (length seat.new.seen ≡ entries) }
        ensures back { IfErr result (λ back. back ≡ store) }
    {
        let shared = &self.table.shared;
        let desk = enter(rt, shared, &mut seat.place);
        if board_entries(desk.board()) != entries {
            leave(shared, &mut seat.place, desk);
            return Err(store);
        }
        leave(shared, &mut seat.place, desk.stored_in(store));
        Ok(())
    }
}
