use crate::steps::GateSeat;
use desk_core::{Keep, KeepAll};
use probe_core::Probe;
use std::marker::Model;

/// A place at a hall, which one thread at a time uses, and which may be sent to another.
#[derive(Drop)]
pub struct Seat<P: Probe, K: Keep = KeepAll> {
    pub(crate) place: GateSeat<P, K>,
    pub(crate) number: u16,
    pub(crate) made: u64,
}

impl<P: Probe, K: Keep> Model for Seat<P, K> {
    ghost use Rattle.hall.specs.Seats.{SeatState};
    ghost use Rattle.hall.specs.Steps.{IsSeat, seen_in};

    ghost Value = { SeatState };

    ghost view = { λ seat. record {
      table = seat.place.table_id;
      most = seat.place.me.0.most;
      number = seat.number;
      seen = seen_in seat.place.me;
    } };

    ghost invariant = { λ seat. IsSeat seat.place.me seat.number seat.made };
}

impl<P: Probe, K: Keep> Seat<P, K> {
    ghost use Rattle.std.specs.Prelude.{◌≡◌, length};
    ghost use Rattle.desk_core.specs.Legal.{IsLegal};
    ghost use Rattle.hall.specs.Seats.{own_calls};

    /// Its number among the seats of its hall, from 0.
    pub fn number(&self) -> u16
        ensures { result ≡ self.now.number }
    {
        self.number
    }

    /// How many changes of this seat got a reply.
    pub fn made(&self) -> u64
        // A seat keeps that its history is legal; here a caller learns it.
        ensures count { result ≡ length (own_calls self.now) }
        ensures legal { IsLegal self.now.seen }
    {
        self.made
    }
}
