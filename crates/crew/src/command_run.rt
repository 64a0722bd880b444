ghost use Rattle.std.specs.List.{All};
ghost use Rattle.desk_core.specs.Order.{ordered};
ghost use Rattle.hall.specs.Seats.{IsOf, IsCarriedOut};
ghost use Rattle.crew.specs.CommandRun.{IsReady, HasRun, HaveRun};

use crate::door::HallDoor;
use crate::ring::Ring;
use desk_core::{Order, Refusal, Reply};
use hall::{Hall, Seat};
use probe_core::Probe;
use std::sync::Wait;
use std::thread;
use std::thread::Threads;

/// A list of orders, with room for the result of each.
#[derive(Drop)]
pub struct Commands {
    pub orders: Vec<Order>,
    pub results: Vec<Result<Reply, Refusal>>,
}

/// A run of a list of orders, and the seat that makes their changes.
#[derive(Drop)]
pub struct CommandRun<P: Probe> {
    pub seat: Seat<P>,
    pub commands: Commands,
}

/// Makes the change that an order asks for. It waits for the seat's turn, but for a name that is not listed.
pub fn carry_out<R: Wait, P: Probe>(
    rt: &R,
    hall: &Hall<P>,
    seat: &mut Seat<P>,
    order: &Order,
) -> Result<Reply, Refusal>
    requires { IsOf hall.now seat.old }
    ensures { IsCarriedOut seat.old seat.new (ordered hall.now.names order.now) result }
{
    let mut door = HallDoor::new(rt, hall, seat);
    desk_core::carry_out(&mut door, order)
}

/// Makes the changes of the orders in their order, and rings after each, also where it was refused.
pub fn run<R: Wait, P: Probe>(rt: &R, hall: &Hall<P>, ring: &Ring, run: &mut CommandRun<P>)
    requires { IsReady hall.now run.old }
    ensures { HasRun hall.now.names run.old run.new }
{
    for order in &run.commands.orders {
        let result = carry_out(rt, hall, &mut run.seat, order);
        run.commands.results.push(result).unwrap();
        ring.ring(rt);
    }
}

/// Makes the runs side by side, in a thread each where threads can be made, and ends the ring behind the last.
pub fn run_all<R: Wait + Threads + Sync, P: Probe + Send>(
    rt: &R,
    hall: &Hall<P>,
    ring: &Ring,
    runs: &mut [CommandRun<P>],
)
    requires { All (IsReady hall.now) runs.old }
    ensures { HaveRun hall.now.names runs.old runs.new }
{
    let threads = runs.len().max(1);
    thread::for_each_mut(rt, runs, threads, &|_, one| run(rt, hall, ring, one));
    ring.end(rt);
}
