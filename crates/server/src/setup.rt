ghost use Rattle.std.specs.Prelude.{◌≡◌, ◌≤◌, IfOk, OnErr};
ghost use Rattle.hall.specs.Seats.{IsOf, new_seats};
ghost use Rattle.hall.specs.CarriedOut.{HasCarriedOut};
ghost use Rattle.crew.specs.HallDoor.{door_hall, door_seat};
ghost use Rattle.script.specs.Change.{line_changes};
ghost use Rattle.server.specs.Setup.{AreSetUp};

use crew::HallDoor;
use desk_core::{Keep, KeepAll, Order, Refusal, Reply};
use hall::{Hall, Seat};
use probe_core::{Maker, Probe};
use script::{Line, Script, set_up};
use std::alloc::{AllocError, Global};
use std::marker::Model;
use std::sync::Wait;

/// A hall that a script has set up, with all its seats, and the script's orders, which are made while calls are served. Only
/// `hall_of` makes one.
pub struct SetUpHall<P: Probe, K: Keep = KeepAll> {
    pub(crate) hall: Hall<P, K>,
    pub(crate) seats: Vec<Seat<P, K>>,
    pub(crate) results: Vec<Result<Reply, Refusal>>,
    pub(crate) orders: Vec<Order>,
    /// The most entries of the hall's journal.
    pub(crate) most: u32,
}

impl<P: Probe, K: Keep> Drop for SetUpHall<P, K> {
    fn drop(self) {
        let SetUpHall {
            hall: _,
            seats: _,
            results: _,
            orders: _,
            most: _,
        } = self;
    }
}

impl<P: Probe, K: Keep> Model for SetUpHall<P, K> {
    ghost use Rattle.std.specs.Prelude.{◌≡◌};
    ghost use Rattle.std.specs.List.{All};
    ghost use Rattle.hall.specs.Seats.{IsOf};
    ghost use Rattle.server.specs.Setup.{SetUpState};

    ghost Value = { SetUpState };

    ghost view = { λ made. record { hall = made.hall; seats = made.seats.items; results = made.results.items; orders = made.orders.items } };

    ghost invariant = { λ made. All (IsOf made.hall) made.seats.items × (made.most ≡ made.hall.most) };
}

impl<P: Probe, K: Keep> SetUpHall<P, K> {
    ghost use Rattle.std.specs.Prelude.{◌≡◌};
    ghost use Rattle.std.specs.List.{All};
    ghost use Rattle.hall.specs.Seats.{IsOf};

    /// What came of each line that asks for a change, in the order of the lines.
    pub fn results(&self) -> &[Result<Reply, Refusal>]
        ensures { result.now ≡ self.now.results }
    {
        self.results.as_slice()
    }

    /// The most entries of the hall's journal.
    pub fn most(&self) -> u32
        ensures { result ≡ self.now.hall.most }
    {
        self.most
    }

    /// The hall, and its seats in the order of their numbers. Orders are dropped: a script that is read to be run has none.
    pub fn into_hall(self) -> (Hall<P, K>, Vec<Seat<P, K>>)
        ensures hall { result.0 ≡ self.hall }
        ensures seats { result.1.items ≡ self.seats }
        ensures ours { All (IsOf self.hall) self.seats }
    {
        let (hall, seats, _) = self.into_parts();
        (hall, seats)
    }

    /// The same, and the script's orders.
    pub(crate) fn into_parts(self) -> (Hall<P, K>, Vec<Seat<P, K>>, Vec<Order>)
        ensures hall { result.0 ≡ self.hall }
        ensures seats { result.1.items ≡ self.seats }
        ensures ours { All (IsOf self.hall) self.seats }
        ensures orders { result.2.items ≡ self.orders }
    {
        let SetUpHall {
            hall,
            seats,
            results: _,
            orders,
            most: _,
        } = self;
        (hall, seats, orders)
    }
}

/// Makes the changes that the lines of a script ask for, in their order, and tells what came of each. Lines that ask for none are
/// passed over.
///
/// All probes are made, and room for all results is taken, before the first change.
pub fn run_setup<R: Wait, P: Probe, K: Keep, M: Maker<P>>(
    rt: &R,
    alloc: Global,
    hall: &Hall<P, K>,
    seat: &mut Seat<P, K>,
    lines: &[Line],
    maker: &M,
) -> Result<Vec<Result<Reply, Refusal>>, AllocError>
    requires seat { IsOf hall.now seat.old }
    ensures met { IfOk result (λ results. HasCarriedOut seat.old seat.new
        (line_changes hall.now.names lines.now) results.items) }
    ensures unmet { OnErr result (seat.new ≡ seat.old) }
{
    let mut door = HallDoor::new(rt, hall, seat);
    set_up_behind(alloc, &mut door, lines, maker)
}

/// The same, behind a door.
fn set_up_behind<R: Wait, P: Probe, K: Keep, M: Maker<P>>(
    alloc: Global,
    door: &mut HallDoor<'_, R, P, K>,
    lines: &[Line],
    maker: &M,
) -> Result<Vec<Result<Reply, Refusal>>, AllocError>
    ensures reference { door.new.seat.ghost_name ≡ door.old.seat.ghost_name }
    ensures met { IfOk result (λ results. HasCarriedOut (door_seat door.old) (door_seat door.new)
        (line_changes (door_hall door.old).names lines.now) results.items) }
    ensures unmet { OnErr result (door_seat door.new ≡ door_seat door.old) }
{
    set_up(alloc, door, lines, maker)
}

/// A hall with the script's catalogue and most entries, and so many seats, of which the first has made the changes that the lines of
/// the script ask for. The script's orders are handed on.
pub fn hall_of<R: Wait, P: Probe, K: Keep, M: Maker<P>>(
    rt: &R,
    alloc: Global,
    script: Script,
    maker: &M,
    seats: u16,
) -> Result<SetUpHall<P, K>, AllocError>
    requires some { 1 ≤ seats }
    requires not_too_many { seats ≤ 1024 }
    ensures hall { IfOk result (λ made. (made.hall.names ≡ script.names)
        × (made.hall.most ≡ script.max) × (made.hall.seats ≡ seats)) }
    ensures seats { IfOk result (λ made. AreSetUp (line_changes script.names script.lines)
        made.results (new_seats made.hall.table script.max seats) made.seats) }
    ensures orders { IfOk result (λ made. made.orders ≡ script.orders) }
{
    let (catalogue, max, lines, orders) = script.into_parts();
    let Ok((hall, mut dealt)) = Hall::new(alloc, catalogue, max, seats) else {
        return Err(AllocError);
    };
    let results = run_setup(rt, alloc, &hall, &mut dealt[0], &lines, maker)?;
    Ok(SetUpHall {
        hall,
        seats: dealt,
        results,
        orders,
        most: max,
    })
}
