//! Crews as tests plan them, and what they leave.

ghost use Rattle.std.specs.Prelude.{MatchResult};
ghost use Rattle.std.specs.List.{All};
ghost use Rattle.hall.specs.Seats.{IsOf};

use crate::halls::crews::letters::notes;
use crate::names::catalogue;
use crew::{CallEnd, CrewFault, CrewWhy, Job, OpenTurnstile, Report, Turnstile, serve_all};
use desk_core::{Finding, Name, Order, Refusal, Reply, Setting};
use hall::{Hall, Seat};
use probe_core::{Manual, Probe};
use std::alloc::Global;
use std::process::Abort;
use std::sync::Wait;
use std::sync::atomic::{AtomicU32, Ordering};
use std::thread::Threads;
use test_support::Scarcity;
use web_call::Limits;

/// An order, as a table has it.
#[derive(Clone, Copy)]
pub(crate) enum Wish {
    Observe(&'static str, Finding),
    Set(&'static str, Setting),
    /// Of a name that is not listed, and so long that it takes a while to find that out.
    SetLong,
}

/// A crew over a hall of `a`, the empty name and `b`, of which its last seat has registered the first ones by hand, if any.
#[derive(Clone, Copy)]
pub(crate) struct Plan {
    /// The most entries of the journal.
    pub(crate) most: u32,
    pub(crate) seats: u16,
    pub(crate) workers: u16,
    /// The most Looks of a Watch.
    pub(crate) looks: u32,
    /// How many bytes are left for the crew, where not all are.
    pub(crate) left: Option<usize>,
}

/// The most bytes that are left, which is more than any crew of the tests needs.
pub(crate) const ROOM: usize = 98_304;

/// A crew of so many workers, with a seat each, and without orders.
pub(crate) fn plan_of(workers: u16) -> Plan {
    Plan {
        most: 100,
        seats: workers,
        workers,
        looks: 10,
        left: None,
    }
}

/// What a crew has left.
#[derive(Drop)]
pub(crate) struct Found {
    /// How each call ended, by its number, or why there is no report.
    pub(crate) calls: Result<Vec<CallEnd>, CrewWhy>,
    /// What came of each order, if there is a report.
    pub(crate) orders: Option<Vec<Vec<Result<Reply, Refusal>>>>,
    /// How many entries the journal has, if no seat was missing.
    pub(crate) entries: Option<usize>,
}

#[tactic(auto, using(crew::proofs::NewSeats::seats_are_its_own))]
fn new_hall<R: Abort, P: Probe>(rt: &R, alloc: Global, plan: &Plan) -> (Hall<P>, Vec<Seat<P>>)
    ensures { All (IsOf result.0) result.1.items }
{
    let names = catalogue(rt, alloc, &["a", "", "b"]);
    Hall::new(alloc, names, plan.most, plan.seats).expect(rt, "a hall")
}

/// Registers a probe of this name, if there is one, by the last seat.
fn register<R: Wait, P: Probe>(
    rt: &R,
    hall: &Hall<P>,
    mut seats: Vec<Seat<P>>,
    name: &str,
    probe: Option<P>,
) -> Vec<Seat<P>>
    requires { All (IsOf hall.now) seats.items }
    ensures { All (IsOf hall.now) result.items }
{
    let Some(probe) = probe else {
        return seats;
    };
    let Some(mut seat) = seats.pop() else {
        return seats;
    };
    let _ = hall.register(rt, &mut seat, name, probe);
    let _ = seats.push(seat);
    seats
}

/// A name of 16 MiB.
fn long_name(rt: &impl Abort, alloc: Global) -> Name {
    let mut text = String::from_str(alloc, "long").expect(rt, "memory");
    for _ in 0..22u32 {
        let half = text.clone().expect(rt, "memory");
        text.push_str(&half).expect(rt, "memory");
    }
    Name::new(text)
}

fn name_of(rt: &impl Abort, alloc: Global, text: &str) -> Name {
    Name::new(String::from_str(alloc, text).expect(rt, "memory"))
}

fn order_of(rt: &impl Abort, alloc: Global, wish: &Wish) -> Order {
    match *wish {
        Wish::Observe(text, finding) => Order::Observe(name_of(rt, alloc, text), finding),
        Wish::Set(text, setting) => Order::Set(name_of(rt, alloc, text), setting),
        Wish::SetLong => Order::Set(long_name(rt, alloc), Setting::Up),
    }
}

/// A list of orders.
pub(crate) fn orders_of(rt: &impl Abort, alloc: Global, wishes: &[Wish]) -> Vec<Order> {
    let mut orders = Vec::new(alloc);
    for wish in wishes {
        orders.push(order_of(rt, alloc, wish)).expect(rt, "memory");
    }
    orders
}

/// Lists of orders.
pub(crate) fn lists_of(rt: &impl Abort, alloc: Global, lists: &[&[Wish]]) -> Vec<Vec<Order>> {
    let mut made = Vec::new(alloc);
    for wishes in lists {
        made.push(orders_of(rt, alloc, *wishes))
            .expect(rt, "memory");
    }
    made
}

/// A report, or a fault.
type Served<P> = Result<Report<P>, CrewFault<P>>;

/// Lets the crew serve at most 1,000 jobs.
fn serve_planned<R, P, J, T>(
    rt: &R,
    alloc: Global,
    plan: &Plan,
    hall: &Hall<P>,
    seats: Vec<Seat<P>>,
    mut jobs: Vec<J>,
    orders: Vec<Vec<Order>>,
    turnstile: &T,
) -> Served<P>
where
    R: Wait + Threads + Sync,
    P: Probe + Send,
    J: Job + Send,
    J::Input: Send,
    J::Output: Send,
    T: Turnstile,
    requires { All (IsOf hall.now) seats.items }
    ensures { MatchResult result (λ report. All (IsOf hall.now) report.seats.items) (λ fault. All (IsOf hall.now) fault.seats.items) }
{
    jobs.truncate(1_000);
    let limits = Limits { looks: plan.looks };
    serve_all(
        rt,
        alloc,
        hall,
        seats,
        jobs,
        orders,
        turnstile,
        plan.workers,
        limits,
    )
}

/// What is left of a crew, its hall and all.
fn found_of<P: Probe>(hall: Hall<P>, served: Served<P>) -> Found
    requires { MatchResult served (λ report. All (IsOf hall) report.seats.items) (λ fault. All (IsOf hall) fault.seats.items) }
{
    let (calls, orders, seats) = match served {
        Ok(report) => (Ok(report.calls), Some(report.orders), report.seats),
        Err(fault) => (Err(fault.why), None, fault.seats),
    };
    let entries = match hall.close(seats) {
        Ok(closed) => Some(closed.desk.journal().len()),
        Err(_) => None,
    };
    Found {
        calls,
        orders,
        entries,
    }
}

/// Takes all memory but that which the plan leaves, for as long as the result is held.
fn squeeze(alloc: Global, plan: &Plan) -> Option<(Vec<u8>, Scarcity)> {
    let left = plan.left?;
    let scarcity = Scarcity::new(alloc, ROOM).ok()?;
    let filler = scarcity.leave(left).ok()?;
    Some((filler, scarcity))
}

/// Lets a crew serve these jobs, over probes of any kind.
pub(crate) fn serve<R, P, J, T>(
    rt: &R,
    alloc: Global,
    plan: &Plan,
    orders: Vec<Vec<Order>>,
    probes: Vec<P>,
    jobs: Vec<J>,
    turnstile: &T,
) -> Found
where
    R: Wait + Threads + Sync + Abort,
    P: Probe + Send,
    J: Job + Send,
    J::Input: Send,
    J::Output: Send,
    T: Turnstile,
{
    let (hall, seats) = new_hall(rt, alloc, plan);
    let mut probes = probes.into_iter();
    let seats = register(rt, &hall, seats, "a", probes.next());
    let seats = register(rt, &hall, seats, "", probes.next());
    let seats = register(rt, &hall, seats, "b", probes.next());
    let taken = squeeze(alloc, plan);
    let served = serve_planned(rt, alloc, plan, &hall, seats, jobs, orders, turnstile);
    drop(taken);
    found_of(hall, served)
}

/// Probes that are set by hand, of `a` and of the empty name.
pub(crate) fn manuals(rt: &impl Abort, alloc: Global) -> Vec<Manual> {
    Vec::from_array(alloc, [Manual::new(), Manual::new()]).expect(rt, "memory")
}

/// Lets a crew answer these requests, and tells how many jobs it has opened.
pub(crate) fn serve_notes<R: Wait + Threads + Sync + Abort>(
    rt: &R,
    alloc: Global,
    plan: &Plan,
    lists: &[&[Wish]],
    requests: &[Option<&'static [u8]>],
) -> (Found, u32) {
    let opened = AtomicU32::new(0);
    let jobs = notes(rt, alloc, requests, &opened);
    let orders = lists_of(rt, alloc, lists);
    let probes = manuals(rt, alloc);
    let found = serve(rt, alloc, plan, orders, probes, jobs, &OpenTurnstile);
    (found, opened.load(Ordering::SeqCst))
}
