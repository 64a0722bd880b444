ghost use Rattle.std.specs.Prelude.{◌≡◌, ◌≢◌, ◌⊎◌, ◌+◌, ◌∷◌, [], Err, length, IfOk, IfSome, IfNone, IsErrOf, is_ok, vec_len};
ghost use Rattle.std.specs.List.{sum_by, count_by};
ghost use Rattle.desk_core.specs.Past.{past};
ghost use Rattle.hall.specs.Seats.{own_calls};
ghost use Rattle.crew.specs.declared.crew_why.CrewWhy.{CrewWhy};
ghost use Rattle.crew.specs.CrewWhy.{crew_fault, IsOtherReason};
ghost use Rattle.crew.specs.Serve.{lists_in};
ghost use Rattle.server.specs.CrewServer.{HasServedOrders};

use crate::accept::Accept;
use crate::serve_fault::ServeFault;
use crate::served::Served;
use crate::setup::SetUpHall;
use crew::{OpenTurnstile, Report, serve_all};
use desk_core::{Order, Refusal, Reply};
use hall::Closed;
use probe_core::Probe;
use std::alloc::{AllocError, Global};
use std::net::TcpListener;
use std::sync::Wait;
use std::thread::Threads;
use web_call::Limits;

/// A Watch looks as often as there are rings for it.
const LIMITS: Limits = Limits { looks: u32::MAX };

/// How many calls are served, and by how many workers.
#[derive(Clone, Copy)]
pub struct Capacity {
    pub workers: u16,
    pub calls: u16,
}

/// Serves so many connections to the listener while the orders that a script left are made, and then closes the hall.
///
/// It needs all seats of the hall: one for each worker, of which there is at least one, and one for the orders. It waits for the
/// last of the connections, however long that takes.
pub fn serve<R, P: Probe + Send>(
    rt: &R,
    alloc: Global,
    made: SetUpHall<P>,
    listener: &TcpListener,
    capacity: Capacity,
) -> Result<Served<P>, ServeFault>
where
    R: Wait + Threads + Sync,
    // A crew that has too few seats, or no workers, is refused, and no other for that; of which other fault there is, tests show.
    ensures refused { IfSome (crew_fault capacity.workers 1 (length made.seats))
        (λ why. (result ≡ Err (ServeFault.Crew why)) ⊎ (result ≡ Err ServeFault.NoMemory)) }
    ensures failed { IfNone (crew_fault capacity.workers 1 (length made.seats))
        ((why : CrewWhy) → IsErrOf result (ServeFault.Crew why)
        → IsOtherReason capacity.calls why) }
    ensures calls { IfOk result (λ served. vec_len served.calls ≡ capacity.calls) }

    // The journal that is left is one legal history of what all seats saw and made.
    ensures served { IfOk result (λ served. HasServedOrders made.hall capacity.workers made.orders
        served.orders.items made.seats (past served.desk.journal)) }
    ensures entries { IfOk result (λ served. length served.desk.journal
        ≡ sum_by (λ seat. length (own_calls seat)) made.seats
        + count_by is_ok served.orders.items) }
    ensures most { IfOk result (λ served. served.desk.max_entries ≡ made.hall.most) }

    ensures missing { IsErrOf result ServeFault.SeatsMissing
        → length made.seats ≢ made.hall.seats }
{
    let (hall, seats, orders) = made.into_parts();
    let Ok((jobs, lists)) = work_of(alloc, listener, capacity.calls, orders) else {
        return Err(ServeFault::NoMemory);
    };
    let Report {
        calls,
        orders: lists,
        seats,
    } = match serve_all(
        rt,
        alloc,
        &hall,
        seats,
        jobs,
        lists,
        &OpenTurnstile,
        capacity.workers,
        LIMITS,
    ) {
        Ok(report) => report,
        Err(fault) => return Err(ServeFault::from(fault.why)),
    };
    let Ok(Closed { desk, .. }) = hall.close(seats) else {
        return Err(ServeFault::SeatsMissing);
    };
    Ok(Served {
        calls,
        orders: only_list(lists),
        desk,
    })
}

/// The results of the one list of orders.
fn only_list(mut lists: Vec<Vec<Result<Reply, Refusal>>>) -> Vec<Result<Reply, Refusal>>
    requires { vec_len lists ≡ 1 }
    ensures { lists_in lists ≡ result.items ∷ [] }
{
    lists.pop().unwrap()
}

/// What a crew is given to do: a job for each of so many connections, and the orders as its one list.
fn work_of<'a>(
    alloc: Global,
    listener: &'a TcpListener,
    calls: u16,
    orders: Vec<Order>,
) -> Result<(Vec<Accept<'a>>, Vec<Vec<Order>>), AllocError>
    ensures jobs { IfOk result (λ work. vec_len work.0 ≡ calls) }
    ensures orders { IfOk result (λ work. lists_in work.1 ≡ orders.items ∷ []) }
    ensures one { IfOk result (λ work. vec_len work.1 ≡ 1) }
{
    let mut jobs = Vec::new(alloc);
    jobs.resize(calls as usize, Accept::new(alloc, listener))?;
    let mut lists = Vec::with_capacity(alloc, 1)?;
    lists.push(orders)?;
    Ok((jobs, lists))
}
