//! A store for a hall that is set up, and the entries that are stored first.

use crate::setup::SetUpHall;
use desk_core::{Catalogue, Entry, Keep};
use hall::Closed;
use probe_core::Probe;
use std::alloc::{AllocError, Global};
use std::sync::Wait;

impl<P: Probe, K: Keep> SetUpHall<P, K> {
    ghost use Rattle.std.specs.Prelude.{◌≡◌, IfErr, OnOk, List, Option};
    ghost use Rattle.std.specs.List.{slice_index_or};
    ghost use Rattle.desk_core.specs.declared.call.Call.{Call};
    ghost use Rattle.desk_core.specs.Past.{past};
    ghost use Rattle.hall.specs.Seats.{SeatState, new_seats};
    ghost use Rattle.hall.specs.CarriedOut.{replied};
    ghost use Rattle.server.specs.Setup.{AreSetUp};
    ghost use Rattle.server.specs.Storing.{HasItsEntries};

    /// Has the hall store each change from now on, in a store that has those of the setup. Where others were made too, the store is
    /// handed back.
    pub fn store_in<R: Wait>(&mut self, rt: &R, store: K) -> Result<(), K>
        requires has { HasItsEntries K.stands K.left store self.old }
        ensures same { OnOk result (self.new ≡ self.old) }
        // The first seat has seen these entries, and no others.
        ensures seen { OnOk result ((calls : List (Option Call)) (other : SeatState)
            → AreSetUp calls self.old.results
            (new_seats self.old.hall.table self.old.hall.most self.old.hall.seats) self.old.seats
            → (slice_index_or self.old.seats 0 other).seen
            ≡ past (replied 0 calls self.old.results)) }
        ensures back { IfErr result (λ back. back ≡ store) }
    {
        let seat = &mut self.seats[0];
        let entries = self.hall.extent(rt, seat).entries;
        if seat.made() != u64::from(entries) {
            return Err(store);
        }
        self.hall.store_in(rt, seat, entries, store)
    }
}

impl<P: Probe> SetUpHall<P> {
    ghost use Rattle.std.specs.Prelude.{◌≡◌, IfOk, List, Option, length};
    ghost use Rattle.desk_core.specs.declared.call.Call.{Call};
    ghost use Rattle.hall.specs.Seats.{new_seats};
    ghost use Rattle.hall.specs.CarriedOut.{replied};
    ghost use Rattle.server.specs.Setup.{AreSetUp};

    /// The catalogue, and the entries of a setup by the only seat, the oldest first.
    pub fn into_entries(self, alloc: Global) -> Result<(Catalogue, Vec<Entry>), AllocError>
        requires alone { (self.hall.seats ≡ 1) × (length self.seats ≡ 1) }
        ensures names { IfOk result (λ taken. taken.0 ≡ self.hall.names) }
        ensures entries { IfOk result (λ taken. (calls : List (Option Call))
            → AreSetUp calls self.results (new_seats self.hall.table self.hall.most 1) self.seats
            → taken.1.items ≡ replied 0 calls self.results) }
    {
        let (hall, seats) = self.into_hall();
        let Ok(
            Closed {
                desk,
                catalogue,
                ..
            },
        ) = hall.close(seats)
        else {
            unreachable!()
        };
        let entries = Vec::from_slice(alloc, desk.journal())?;
        Ok((catalogue, entries))
    }
}
