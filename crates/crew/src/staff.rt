ghost use Rattle.std.specs.Prelude.{◌≡◌, ◌≤◌, ◌+◌, [], ◌++◌, map, length, vec_len, vec_capacity, IfOk};
ghost use Rattle.std.specs.List.{All};
ghost use Rattle.std.specs.Vec.Iter.{into_iter_items, into_iter_len};
ghost use Rattle.hall.specs.Seats.{IsOf};
ghost use Rattle.crew.specs.CommandRun.{HaveRun, IsEquipped, IsReady};
ghost use Rattle.crew.specs.Staff.{reports_of};
ghost use Rattle.crew.specs.Worker.{HaveLooked};

use crate::call_end::CallEnd;
use crate::command_run::{CommandRun, Commands, run_all};
use crate::job::Job;
use crate::turnstile::Turnstile;
use crate::worker::{Worker, Workplace, work_all};
use desk_core::{Order, Refusal, Reply};
use hall::Seat;
use probe_core::Probe;
use std::alloc::{AllocError, Global};
use std::sync::Wait;
use std::thread;
use std::thread::Threads;
use std::vec::IntoIter;

/// What a staff gives back when it is done: the seats in their order, the results of each list of orders, and the reports.
#[derive(Drop)]
pub struct Left<P: Probe> {
    pub seats: Vec<Seat<P>>,
    pub results: Vec<Vec<Result<Reply, Refusal>>>,
    pub ends: Vec<(u32, CallEnd)>,
}

impl<P: Probe> Left<P> {
    ghost use Rattle.std.specs.Prelude.{◌≤◌, vec_capacity, IfOk};
    ghost use Rattle.crew.specs.Staff.{IsEmptyFor};

    /// Empty buffers, with room for so many seats, lists of results and reports.
    fn with_room(
        alloc: Global,
        seats: usize,
        lists: usize,
        ends: usize,
    ) -> Result<Left<P>, AllocError>
        ensures room { IfOk result (IsEmptyFor seats lists) }
        ensures ends { IfOk result (λ left. ends ≤ vec_capacity left.ends) }
    {
        let seats = Vec::with_capacity(alloc, seats)?;
        let results = Vec::with_capacity(alloc, lists)?;
        let ends = Vec::with_capacity(alloc, ends)?;
        Ok(Left {
            seats,
            results,
            ends,
        })
    }
}

/// The workers and the command runs of a crew, the seats that neither need, and the empty buffers that all will be given back in.
#[derive(Drop)]
pub struct Staff<P: Probe> {
    pub workers: Vec<Worker<P>>,
    pub runs: Vec<CommandRun<P>>,
    pub spare: IntoIter<Seat<P>>,
    pub left: Left<P>,
}

/// Takes the memory for the results of each list of orders.
fn equip(alloc: Global, lists: Vec<Vec<Order>>) -> Result<Vec<Commands>, AllocError>
    ensures orders { IfOk result (λ equipped.
        map (λ list. list.orders) equipped.items ≡ lists.items) }
    ensures equipped { IfOk result (λ equipped. All IsEquipped equipped.items) }
{
    let mut equipped = Vec::with_capacity(alloc, lists.len())?;
    for orders in lists {
        let results = Vec::with_capacity(alloc, orders.len())?;
        equipped.push(Commands { orders, results })?;
    }
    Ok(equipped)
}

/// Gives each list of orders a seat.
fn assign<P: Probe>(
    lists: Vec<Commands>,
    seats: &mut IntoIter<Seat<P>>,
    runs: &mut Vec<CommandRun<P>>,
)
    requires none { runs.old.items ≡ [] }
    requires room { vec_len lists ≤ vec_capacity runs.old }
    requires seats { vec_len lists ≤ into_iter_len seats.old }
    ensures seats { into_iter_items seats.old
        ≡ map (λ run. run.seat) runs.new.items ++ into_iter_items seats.new }
    ensures lists { map (λ run. run.commands) runs.new.items ≡ lists.items }
{
    for commands in lists {
        let seat = seats.next().unwrap();
        runs.push(CommandRun { seat, commands }).unwrap();
    }
}

/// Takes the seats of the workers back, in their order, and their reports. Where there is no room for those of a worker, they are
/// lost.
fn dismiss<P: Probe>(
    workers: Vec<Worker<P>>,
    seats: &mut Vec<Seat<P>>,
    ends: &mut Vec<(u32, CallEnd)>,
)
    requires { vec_len seats.old + vec_len workers ≤ vec_capacity seats.old }
    ensures seats { seats.new.items
        ≡ seats.old.items ++ map (λ worker. worker.seat) workers.items }
    ensures capacity { vec_capacity seats.old ≤ vec_capacity seats.new }
    ensures ends { vec_len ends.old + length (reports_of workers.items) ≤ vec_capacity ends.old
        → ends.new.items ≡ ends.old.items ++ reports_of workers.items }
{
    for worker in workers {
        let Worker {
            seat,
            ends: mut more,
        } = worker;
        seats.push(seat).unwrap();
        let _ = ends.append(&mut more);
    }
}

impl<P: Probe> Staff<P> {
    ghost use Rattle.std.specs.Prelude.{◌≡◌, ◌+◌, ◌≤◌, map, length, vec_len, vec_capacity, IfOk, IfErr};
    ghost use Rattle.std.specs.List.{All};
    ghost use Rattle.std.specs.Vec.Iter.{into_iter_len};
    ghost use Rattle.crew.specs.Serve.{lists_in};
    ghost use Rattle.crew.specs.CommandRun.{IsEquipped};
    ghost use Rattle.crew.specs.Staff.{IsEmptyFor, IsStaffOf, IsVacant, reports_of, seats_of};

    /// Takes all memory: for a staff that has nobody yet, and for the results of all orders.
    fn vacant(
        alloc: Global,
        workers: u16,
        seats: usize,
        jobs: usize,
        orders: Vec<Vec<Order>>,
    ) -> Result<(Staff<P>, Vec<Commands>), AllocError>
        ensures room { IfOk result (λ taken. IsVacant workers (vec_len orders) seats taken.0) }
        ensures ends { IfOk result (λ taken. jobs ≤ vec_capacity taken.0.left.ends) }
        ensures orders { IfOk result (λ taken. map (λ list. list.orders) taken.1.items ≡ orders.items) }
        ensures equipped { IfOk result (λ taken. All IsEquipped taken.1.items) }
    {
        let count = orders.len();
        let lists = equip(alloc, orders)?;
        let left = Left::with_room(alloc, seats, count, jobs)?;
        let workers = Vec::with_capacity(alloc, workers as usize)?;
        let runs = Vec::with_capacity(alloc, count)?;
        let staff = Staff {
            workers,
            runs,
            spare: Vec::new(alloc).into_iter(),
            left,
        };
        Ok((staff, lists))
    }

    /// Gives the first seats to so many workers, and those behind them to a run of each list. Where memory is refused, the seats come
    /// back.
    pub fn new(
        alloc: Global,
        workers: u16,
        jobs: usize,
        seats: Vec<Seat<P>>,
        orders: Vec<Vec<Order>>,
    ) -> Result<Staff<P>, Vec<Seat<P>>>
        requires enough { workers + vec_len orders ≤ vec_len seats }
        ensures made { IfOk result (IsStaffOf workers (lists_in orders) seats.items) }
        ensures room { IfOk result (λ staff. jobs ≤ vec_capacity staff.left.ends) }
        ensures refused { IfErr result (λ left. left ≡ seats) }
    {
        let Ok((vacant, lists)) = Staff::vacant(alloc, workers, seats.len(), jobs, orders) else {
            return Err(seats);
        };
        let (mut hired, mut runs) = (vacant.workers, vacant.runs);
        let mut spare = seats.into_iter();
        for _ in 0..workers {
            let seat = spare.next().unwrap();
            let ends = Vec::new(alloc);
            hired.push(Worker { seat, ends }).unwrap();
        }
        assign(lists, &mut spare, &mut runs);
        Ok(Staff {
            workers: hired,
            runs,
            spare,
            left: vacant.left,
        })
    }

    /// Puts all seats, results and reports into the buffers.
    fn give_back(self) -> Left<P>
        requires { IsEmptyFor
            (vec_len self.workers + (vec_len self.runs + into_iter_len self.spare))
            (vec_len self.runs) self.left }
        ensures seats { result.seats.items ≡ seats_of self }
        ensures results { result.results.items
            ≡ map (λ run. run.commands.results) self.runs.items }
        ensures ends { length (reports_of self.workers.items) ≤ vec_capacity self.left.ends
            → result.ends.items ≡ reports_of self.workers.items }
    {
        let Left {
            mut seats,
            mut results,
            mut ends,
        } = self.left;
        dismiss(self.workers, &mut seats, &mut ends);
        for run in self.runs {
            seats.push(run.seat).unwrap();
            results.push(run.commands.results).unwrap();
        }
        for seat in self.spare {
            seats.push(seat).unwrap();
        }
        Left {
            seats,
            results,
            ends,
        }
    }
}

impl<P: Probe + Send> Staff<P> {
    ghost use Rattle.std.specs.Prelude.{vec_len};
    ghost use Rattle.std.specs.List.{All};
    ghost use Rattle.hall.specs.Seats.{IsOf};
    ghost use Rattle.crew.specs.Serve.{CrewHasServed, lists_in};
    ghost use Rattle.crew.specs.Staff.{HasMemory, orders_of, seats_of};

    /// Lets the workers serve calls beside the command runs, and gives everything back.
    pub fn run<R: Wait + Threads + Sync, J: Job + Send, T: Turnstile>(
        self,
        rt: &R,
        place: &Workplace<'_, P, J, T>,
    ) -> Left<P>
    where
        J::Input: Send,
        J::Output: Send,
        requires seats { All (IsOf place.now.hall.now) (seats_of self) }
        requires memory { HasMemory self }
        ensures served { CrewHasServed place.now.hall.now.names (vec_len self.workers)
            (orders_of self) (lists_in result.results) (seats_of self) result.seats.items }
        ensures ours { All (IsOf place.now.hall.now) result.seats.items }
    {
        let (workers, runs) = run_beside(rt, place, self.workers, self.runs);
        let done = Staff {
            workers,
            runs,
            spare: self.spare,
            left: self.left,
        };
        done.give_back()
    }
}

/// Lets the workers serve calls while the lists are run. The ring ends behind the last of them, so that no watch waits for more.
///
/// Where no thread can be made, the lists are run first.
fn run_beside<R: Wait + Threads + Sync, P: Probe + Send, J: Job + Send, T: Turnstile>(
    rt: &R,
    place: &Workplace<'_, P, J, T>,
    mut workers: Vec<Worker<P>>,
    mut runs: Vec<CommandRun<P>>,
) -> (Vec<Worker<P>>, Vec<CommandRun<P>>)
where
    J::Input: Send,
    J::Output: Send,
    requires workers { All (λ worker. IsOf place.now.hall.now worker.seat) workers.items }
    requires runs { All (IsReady place.now.hall.now) runs.items }
    ensures workers { vec_len result.0 ≡ vec_len workers }
    ensures runs { vec_len result.1 ≡ vec_len runs }
    ensures looked { HaveLooked workers.items result.0.items }
    ensures ran { HaveRun place.now.hall.now.names runs.items result.1.items }
{
    thread::join(
        rt,
        move || -> Vec<Worker<P>>
            requires { All (λ worker. IsOf place.now.hall.now worker.seat) workers.items }
            ensures len { vec_len result ≡ vec_len workers }
            ensures looked { HaveLooked workers.items result.items }
        {
            work_all(rt, place, workers.as_mut_slice());
            workers
        },
        move || -> Vec<CommandRun<P>>
            requires { All (IsReady place.now.hall.now) runs.items }
            ensures len { vec_len result ≡ vec_len runs }
            ensures ran { HaveRun place.entry.now.hall.now.names runs.items result.items }
        {
            run_all(rt, place.hall, place.ring, runs.as_mut_slice());
            runs
        },
    )
}
