//! Seats of a hall, and what they do: calls with what has to come of them, as the rows of a table.

ghost use Rattle.hall.specs.Seats.{IsOf};

use crate::names::catalogue;
use desk_core::{Finding, Refusal, Reply, Setting};
use hall::{Answer, Closed, Hall, Seat};
use health_wire::Serving;
use probe_core::{Probe, Rule};
use std::alloc::Global;
use std::process::Abort;
use std::sync::atomic::{AtomicU64, Ordering};
use std::sync::{Arc, Wait};

/// What counts how often each of four probes was dropped.
pub(crate) type Counters = [Arc<AtomicU64>; 4];

pub(crate) fn drops_of(counters: &Counters) -> [u64; 4] {
    let [a, b, c, d] = counters;
    [
        a.load(Ordering::SeqCst),
        b.load(Ordering::SeqCst),
        c.load(Ordering::SeqCst),
        d.load(Ordering::SeqCst),
    ]
}

/// A seat, and the probes that go with it.
#[derive(Drop)]
pub(crate) struct Guest<P: Probe> {
    pub(crate) seat: Seat<P>,
    /// Those that it is to hand in, the next one last.
    pub(crate) probes: Vec<P>,
    /// The one that came back last.
    pub(crate) held: Option<P>,
    pub(crate) counters: Option<Counters>,
}

/// A call of a seat.
#[derive(Clone, Copy)]
pub(crate) enum Act {
    /// Hands the next probe in under a name.
    Register(&'static str),
    Retire(&'static str),
    Observe(&'static str, Finding),
    Set(&'static str, Setting),
    Shutdown,
    Resume,
    Check(&'static str),
    /// A Check of which only the status counts.
    Show(&'static str),
    /// A Check, and whether the name has a status just where there are fewer entries than this.
    IsGoneFrom(&'static str, u32),
    /// How many changes the seat has made.
    Made,
    /// Drops the probe that came back.
    LetGo,
    /// How often each probe was dropped.
    Drops,
}

/// What comes of a call.
#[derive(Clone, Copy, Debug, PartialEq, Eq)]
pub(crate) enum Found {
    /// The answer, and of the probe that came back the rule and whether it is up.
    Change(Result<Reply, Refusal>, Option<(Rule, bool)>),
    Check(u32, Option<Serving>),
    Show(Option<Serving>),
    Is(bool),
    Made(u64),
    Drops([u64; 4]),
    Nothing,
}

pub(crate) type Row = (Act, Found);

/// Which row went otherwise, counted from 0, and what came of it.
pub(crate) type Wrong = (usize, Found);

/// A change that was made, and gave no probe back.
pub(crate) const DONE: Found = Found::Change(Ok(Reply::Done), None);

/// The names of the halls.
const NAMES: [&str; 3] = ["a", "b", ""];

/// A hall with its two seats in the order of their numbers, which have these probes.
pub(crate) fn two_seats<P: Probe>(
    rt: &impl Abort,
    alloc: Global,
    most: u32,
    probes: (Vec<P>, Vec<P>),
    counters: Option<Counters>,
) -> (Hall<P>, Guest<P>, Guest<P>)
    ensures first { IsOf result.0 result.1.seat }
    ensures second { IsOf result.0 result.2.seat }
{
    let names = catalogue(rt, alloc, &NAMES);
    let (hall, mut seats) = Hall::new(alloc, names, most, 2).expect(rt, "a hall");
    let (of_first, of_second) = probes;
    let second = Guest {
        seat: seats.pop().unwrap(),
        probes: of_second,
        held: None,
        counters: None,
    };
    let first = Guest {
        seat: seats.pop().unwrap(),
        probes: of_first,
        held: None,
        counters,
    };
    (hall, first, second)
}

/// Closes a hall with both its seats.
pub(crate) fn close<P: Probe>(
    rt: &impl Abort,
    alloc: Global,
    hall: Hall<P>,
    first: Seat<P>,
    second: Seat<P>,
) -> Closed<P>
    requires first { IsOf hall first }
    requires second { IsOf hall second }
{
    let seats = Vec::from_array(alloc, [first, second]).expect(rt, "memory");
    match hall.close(seats) {
        Ok(closed) => closed,
        Err(_) => panic!(rt; "not closed"),
    }
}

fn probe_of<P: Probe>(held: &Option<P>) -> Option<(Rule, bool)> {
    let probe = held.as_ref()?;
    Some((probe.rule(), probe.is_up()))
}

fn register<R: Wait, P: Probe>(rt: &R, hall: &Hall<P>, guest: &mut Guest<P>, name: &str) -> Found
    requires { IsOf hall.now guest.old.seat }
    ensures { IsOf hall.now guest.new.seat }
{
    let Some(probe) = guest.probes.pop() else {
        return Found::Nothing;
    };
    match hall.register(rt, &mut guest.seat, name, probe) {
        Ok(taken) => {
            guest.held = taken.old;
            Found::Change(Ok(taken.reply), probe_of(&guest.held))
        }
        Err(handed) => {
            guest.held = Some(handed.probe);
            Found::Change(Err(handed.refusal), probe_of(&guest.held))
        }
    }
}

fn retire<R: Wait, P: Probe>(rt: &R, hall: &Hall<P>, guest: &mut Guest<P>, name: &str) -> Found
    requires { IsOf hall.now guest.old.seat }
    ensures { IsOf hall.now guest.new.seat }
{
    match hall.retire(rt, &mut guest.seat, name) {
        Ok((reply, old)) => {
            guest.held = old;
            Found::Change(Ok(reply), probe_of(&guest.held))
        }
        Err(refusal) => Found::Change(Err(refusal), None),
    }
}

fn change<R: Wait, P: Probe>(rt: &R, hall: &Hall<P>, seat: &mut Seat<P>, act: Act) -> Found
    requires { IsOf hall.now seat.old }
    ensures { IsOf hall.now seat.new }
{
    match act {
        Act::Observe(name, finding) => Found::Change(hall.observe(rt, seat, name, finding), None),
        Act::Set(name, setting) => Found::Change(hall.set(rt, seat, name, setting), None),
        Act::Shutdown => Found::Change(hall.shutdown(rt, seat), None),
        Act::Resume => Found::Change(hall.resume(rt, seat), None),
        _ => Found::Nothing,
    }
}

fn look<P: Probe>(hall: &Hall<P>, seat: &mut Seat<P>, act: Act) -> Found
    requires { IsOf hall.now seat.old }
    ensures { IsOf hall.now seat.new }
{
    match act {
        Act::Check(name) => {
            let Answer { at, status } = hall.check(seat, name);
            Found::Check(at, status)
        }
        Act::Show(name) => Found::Show(hall.check(seat, name).status),
        Act::IsGoneFrom(name, entries) => {
            let Answer { at, status } = hall.check(seat, name);
            Found::Is(status.is_some() == (at < entries))
        }
        Act::Made => Found::Made(seat.made()),
        _ => Found::Nothing,
    }
}

/// Makes the call, and tells what came of it.
fn result_of<R: Wait, P: Probe>(rt: &R, hall: &Hall<P>, guest: &mut Guest<P>, act: Act) -> Found
    requires { IsOf hall.now guest.old.seat }
    ensures { IsOf hall.now guest.new.seat }
{
    match act {
        Act::Register(name) => register(rt, hall, guest, name),
        Act::Retire(name) => retire(rt, hall, guest, name),
        Act::LetGo => {
            guest.held = None;
            Found::Nothing
        }
        Act::Drops => match &guest.counters {
            Some(counters) => Found::Drops(drops_of(counters)),
            None => Found::Nothing,
        },
        Act::Observe(..) | Act::Set(..) | Act::Shutdown | Act::Resume => {
            change(rt, hall, &mut guest.seat, act)
        }
        _ => look(hall, &mut guest.seat, act),
    }
}

/// Goes through this count of rows, from the first one on and again from there, up to one that goes otherwise.
pub(crate) fn first_wrong<R: Wait, P: Probe>(
    rt: &R,
    hall: &Hall<P>,
    guest: &mut Guest<P>,
    rows: &[Row],
    count: usize,
) -> Option<Wrong>
    requires { IsOf hall.now guest.old.seat }
    ensures { IsOf hall.now guest.new.seat }
{
    for index in 0..count {
        let (act, expected) = rows.get(index % rows.len().max(1))?;
        let found = result_of(rt, hall, guest, *act);
        if found != *expected {
            return Some((index, found));
        }
    }
    None
}

/// Goes through the rows once.
pub(crate) fn wrong_of<R: Wait, P: Probe>(
    rt: &R,
    hall: &Hall<P>,
    guest: &mut Guest<P>,
    rows: &[Row],
) -> Option<Wrong>
    requires { IsOf hall.now guest.old.seat }
    ensures { IsOf hall.now guest.new.seat }
{
    first_wrong(rt, hall, guest, rows, rows.len())
}
