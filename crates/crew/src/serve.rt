ghost use Rattle.std.specs.Prelude.{◌≡◌, ◌<◌, ◌^◌, ◌⊎◌, List, Result, vec_len, Err, IfSome, IfNone, IfOk, IfErr, MatchResult};
ghost use Rattle.std.specs.List.{All};
ghost use Rattle.desk_core.specs.declared.refusal.Refusal.{Refusal};
ghost use Rattle.desk_core.specs.declared.reply.Reply.{Reply};
ghost use Rattle.hall.specs.Seats.{IsOf};
ghost use Rattle.crew.specs.CrewWhy.{crew_fault, IsOtherReason};
ghost use Rattle.crew.specs.Serve.{CrewHasServed, lists_in};

use crate::crew_why::CrewWhy;
use crate::gathering::{fault_of, gather};
use crate::job::Job;
use crate::report::{CrewFault, Report};
use crate::ring::Ring;
use crate::staff::{Left, Staff};
use crate::turnstile::Turnstile;
use crate::worker::{Queue, Workplace};
use desk_core::Order;
use hall::{Hall, Seat};
use probe_core::Probe;
use std::alloc::Global;
use std::sync::{Mutex, Wait};
use std::thread::Threads;
use web_call::Limits;

/// Serves the jobs by so many workers, while the changes of each list of orders are made by one worker more.
///
/// The workers have the first of the seats, and the lists those behind them; more seats than needed come back as they were. The
/// jobs are numbered from 0, and each is taken by one worker, which enters the turnstile, opens the job, answers one request and
/// leaves. Each order, refused or not, lets every open watch look once more; when all are made, the watches end with the Looks that
/// they have left. Where no thread can be made, the orders are made first and the calls served after them, one by one; a turnstile
/// that holds one call for another needs a thread for each worker.
///
/// Room for the seats, the results of the orders and the reports is taken first: where it is refused nothing starts, and the answer is Lost, or
/// NoMemory where there are no jobs. A worker that finds no room for one report more ends, and the others take the jobs that
/// are left. The list of all calls is made last, and may want memory when all is done.
pub fn serve_all<R: Wait + Threads + Sync, P: Probe + Send, J: Job + Send, T: Turnstile>(
    rt: &R,
    alloc: Global,
    hall: &Hall<P>,
    seats: Vec<Seat<P>>,
    jobs: Vec<J>,
    orders: Vec<Vec<Order>>,
    turnstile: &T,
    workers: u16,
    limits: Limits,
) -> Result<Report<P>, CrewFault<P>>
where
    J::Input: Send,
    J::Output: Send,
    requires ours { All (IsOf hall.now) seats.items }
    requires count { vec_len jobs < 2 ^ 32 }

    // These come first, and start nothing.
    ensures refused { IfSome (crew_fault workers (vec_len orders) (vec_len seats))
        (λ why. result ≡ Err (record { why = why; seats = seats })) }

    // Else it is another reason, and which of the others, tests show.
    ensures failed { IfNone (crew_fault workers (vec_len orders) (vec_len seats))
        (IfErr result (λ fault. IsOtherReason (vec_len jobs) fault.why)) }

    // That each end is its own call's, tests show.
    ensures calls { IfOk result (λ report. vec_len report.calls ≡ vec_len jobs) }
    ensures served { IfOk result (λ report. CrewHasServed hall.now.names workers (lists_in orders)
        (lists_in report.orders) seats.items report.seats.items) }

    // Without a report the seats are as they were, or the crew has served.
    ensures left { IfErr result (λ fault. (fault.seats ≡ seats)
        ⊎ ((results : List (List (Result Reply Refusal))) × CrewHasServed hall.now.names workers
        (lists_in orders) results seats.items fault.seats.items)) }
    ensures still_ours { MatchResult result (λ report. All (IsOf hall.now) report.seats.items)
        (λ fault. All (IsOf hall.now) fault.seats.items) }
{
    if let Some(why) = CrewWhy::of(workers, orders.len(), seats.len()) {
        return Err(CrewFault { why, seats });
    }
    let calls = jobs.len() as u32;
    let staff = match Staff::new(alloc, workers, jobs.len(), seats, orders) {
        Ok(staff) => staff,
        Err(seats) => {
            let why = fault_of(calls, &[]);
            return Err(CrewFault { why, seats });
        }
    };
    let ring = Ring::new();
    let queue = Mutex::new(Queue::new(jobs));
    let place = Workplace {
        alloc,
        hall,
        queue: &queue,
        turnstile,
        ring: &ring,
        limits,
    };
    let Left {
        seats,
        results,
        ends,
    } = staff.run(rt, &place);
    match gather(alloc, calls, ends) {
        Ok(calls) => Ok(Report {
            calls,
            orders: results,
            seats,
        }),
        Err(why) => Err(CrewFault { why, seats }),
    }
}
