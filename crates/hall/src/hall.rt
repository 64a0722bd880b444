ghost use Rattle.std.specs.Prelude.{◌≡◌, [], IfOk};
ghost use Rattle.hall.specs.Views.{dealer};
ghost use Rattle.hall.specs.Seats.{new_seats};
ghost use Rattle.hall.specs.Steps.{IsHall};

use crate::fault::HallFault;
use crate::seat::Seat;
use crate::steps::{Deal, GateSeat, Table};
use crate::view::HallLimits;
use desk_core::{Catalogue, Desk, Keep, KeepAll};
use probe_core::Probe;
use std::alloc::{AllocError, Global};
use std::marker::Model;

/// The registry that threads share: each comes with a seat of its own.
pub struct Hall<P: Probe, K: Keep = KeepAll> {
    pub(crate) table: Table<P, K>,
    pub(crate) catalogue: Catalogue,
    pub(crate) seats: u16,
}

impl<P: Probe, K: Keep> Drop for Hall<P, K> {
    fn drop(self) {
        // Every field is named: a new one, from which something could be answered, fails to compile here.
        let Hall {
            table: _,
            catalogue: _,
            seats: _,
        } = self;
    }
}

impl<P: Probe, K: Keep> Model for Hall<P, K> {
    ghost use Rattle.std.specs.Prelude.{◌≡◌, ◌<◌};
    ghost use Rattle.hall.specs.Seats.{HallState};
    ghost use Rattle.hall.specs.Steps.{IsHall};

    ghost Value = { HallState };

    ghost view = { λ hall. record {
      table = hall.table.shared.table_id;
      most = hall.table.shared.key.most;
      seats = hall.seats;
      names = hall.catalogue;
    } };

    ghost invariant = { λ hall. IsHall hall.table.shared.table_id
        × (hall.table.shared.key.seats ≡ hall.seats) × (0 < hall.seats) };
}

impl<P: Probe, K: Keep> Hall<P, K> {
    ghost use Rattle.std.specs.Prelude.{◌≡◌, Err, IfSome, IfNone, IfOk, IsOkUnless};
    ghost use Rattle.hall.specs.Fault.{hall_fault};
    ghost use Rattle.hall.specs.Seats.{new_seats};

    /// A hall with an empty registry, whose journal takes at most so many entries, and its seats in the order of their numbers.
    pub fn new(
        alloc: Global,
        catalogue: Catalogue,
        max_entries: u32,
        seats: u16,
    ) -> Result<(Hall<P, K>, Vec<Seat<P, K>>), HallFault>
        ensures hall { IfOk result (λ made. (made.0.most ≡ max_entries)
            × (made.0.seats ≡ seats) × (made.0.names ≡ catalogue)) }
        ensures seats { IfOk result (λ made.
            made.1.items ≡ new_seats made.0.table max_entries seats) }
        ensures fault { IfSome (hall_fault seats) (λ fault. result ≡ Err fault) }
        ensures no_fault { IfNone (hall_fault seats) (IsOkUnless result HallFault.NoMemory) }
    {
        if let Some(fault) = HallFault::of(seats) {
            return Err(fault);
        }
        let Ok((table, mut first)) = lay(alloc, max_entries, seats) else {
            return Err(HallFault::NoMemory);
        };
        let Ok(dealt) = deal(alloc, &table, &mut first, max_entries, seats) else {
            return Err(HallFault::NoMemory);
        };
        Ok((
            Hall {
                table,
                catalogue,
                seats,
            },
            dealt,
        ))
    }

    /// All that it has.
    pub(crate) fn into_parts(self) -> (Table<P, K>, Catalogue)
        ensures table { result.0.shared.table_id ≡ self.table }
        ensures most { result.0.shared.key.most ≡ self.most }
        ensures seats { result.0.shared.key.seats ≡ self.seats }
        ensures names { result.1 ≡ self.names }
    {
        // Every field is named: a new one, from which something could be answered, fails to compile here.
        let Hall {
            table,
            catalogue,
            seats: _,
        } = self;
        (table, catalogue)
    }

    /// The names of the services.
    pub fn catalogue(&self) -> &Catalogue
        ensures { result.now ≡ self.now.names }
    {
        &self.catalogue
    }
}

/// A table with the desk at home, and the view that deals out the seats.
fn lay<P: Probe, K: Keep>(
    alloc: Global,
    most: u32,
    seats: u16,
) -> Result<(Table<P, K>, GateSeat<P, K>), AllocError>
    ensures table { IfOk result (λ made. IsHall made.0.shared.table_id
        × (made.0.shared.key ≡ record { most = most; seats = seats })) }
    ensures dealer { IfOk result (λ made. (made.1.table_id ≡ made.0.shared.table_id)
        × (made.1.me ≡ (dealer 0 most, []))) }
{
    let mut slots = Vec::with_capacity(alloc, 1)?;
    slots.push(Some(Desk::new(alloc, most)))?;
    let limits = HallLimits { most, seats };
    match Table::new(alloc, &[0, 0, 0], slots, &limits) {
        Ok(made) => Ok(made),
        Err(_) => Err(AllocError),
    }
}

/// Deals out all seats.
fn deal<P: Probe, K: Keep>(
    alloc: Global,
    table: &Table<P, K>,
    first: &mut GateSeat<P, K>,
    most: u32,
    seats: u16,
) -> Result<Vec<Seat<P, K>>, AllocError>
    requires table { IsHall table.now.shared.table_id
        × (table.now.shared.key ≡ record { most = most; seats = seats }) }
    requires first { (first.old.table_id ≡ table.now.shared.table_id)
        × (first.old.me ≡ (dealer 0 most, [])) }
    ensures { IfOk result (λ dealt.
        dealt.items ≡ new_seats table.now.shared.table_id most seats) }
{
    let mut dealt = Vec::with_capacity(alloc, seats as usize)?;
    for number in 0..seats {
        dealt.push(Seat {
            place: table.shared.split_seat::<Deal>(first),
            number,
            made: 0,
        })?;
    }
    Ok(dealt)
}
