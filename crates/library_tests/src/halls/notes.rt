//! What a seat hears of another: by a note, and by the hall alone.

ghost use Rattle.std.specs.Prelude.{◌≡◌, IfSome};
ghost use Rattle.hall.specs.Seats.{IsOf};

use crate::halls::guests::{Act, DONE, Found, Guest, Row, Wrong, close, two_seats, wrong_of};
use crate::same::same;
use desk_core::{Refusal, Setting};
use hall::{Hall, Note, Seat, Unclosed};
use health_wire::Serving;
use probe_core::{Manual, Rule, Start, Threshold};
use std::alloc::Global;
use std::process::Abort;
use std::sync::Wait;
use std::thread;
use std::thread::Threads;

/// A seat that comes to a thread, the note that it takes in first, and the rows that it goes through.
#[derive(Drop)]
struct Visit {
    guest: Guest<Manual>,
    heard: Option<Note<Manual>>,
    rows: &'static [Row],
}

/// The seat, the note that it wrote last, and the row that went otherwise.
type Told = (Guest<Manual>, Note<Manual>, Option<Wrong>);

fn tell<R: Wait>(rt: &R, hall: &Hall<Manual>, visit: Visit) -> Told
    requires guest { IsOf hall.now visit.guest.seat }
    requires heard { IfSome visit.heard (λ note. note.table ≡ hall.now.table) }
    ensures guest { IsOf hall.now result.0.seat }
    ensures note { result.1.table ≡ hall.now.table }
{
    let Visit {
        mut guest,
        heard,
        rows,
    } = visit;
    if let Some(note) = heard {
        hall.meet(&mut guest.seat, note);
    }
    let wrong = wrong_of(rt, hall, &mut guest, rows);
    let note = hall.note(&mut guest.seat);
    (guest, note, wrong)
}

fn tell_in_a_thread<R: Wait + Threads + Sync>(rt: &R, hall: &Hall<Manual>, visit: Visit) -> Told
    requires guest { IsOf hall.now visit.guest.seat }
    requires heard { IfSome visit.heard (λ note. note.table ≡ hall.now.table) }
    ensures guest { IsOf hall.now result.0.seat }
    ensures note { result.1.table ≡ hall.now.table }
{
    let (told, _) = thread::join(
        rt,
        move || -> (Guest<Manual>, Note<Manual>, Option<Wrong>)
            requires guest { IsOf hall.now visit.guest.seat }
            requires heard { IfSome visit.heard (λ note. note.table ≡ hall.now.table) }
            ensures guest { IsOf hall.entry.now result.0.seat }
            ensures note { result.1.table ≡ hall.entry.now.table }
        { tell(rt, hall, visit) },
        || {},
    );
    told
}

/// Closes a hall of two seats with one of them, which is refused, and gives both back.
fn close_too_early(
    rt: &impl Abort,
    alloc: Global,
    hall: Hall<Manual>,
    seat: Seat<Manual>,
) -> (Hall<Manual>, Seat<Manual>)
    requires { IsOf hall seat }
    ensures hall { result.0 ≡ hall }
    ensures seat { result.1 ≡ seat }
{
    let seats = Vec::from_array(alloc, [seat]).expect(rt, "memory");
    let Err(unclosed) = hall.close(seats) else {
        panic!(rt; "closed without a seat")
    };
    let Unclosed { hall, mut seats } = unclosed;
    (hall, seats.pop().expect(rt, "a seat"))
}

static REGISTERED: [Row; 1] = [(Act::Register("a"), DONE)];

static HEARD_OF_ONE: [Row; 2] = [
    (Act::Check("a"), Found::Check(1, Some(Serving::Serving))),
    (Act::Set("a", Setting::Down), DONE),
];

static HEARD_OF_TWO: [Row; 1] = [(Act::Check("a"), Found::Check(2, Some(Serving::NotServing)))];

/// Each seat hears in a thread of its own what the other wrote down in its own. How many entries there are at the end, and the rows that
/// went otherwise.
fn told_through_notes<R: Wait + Threads + Sync + Abort>(
    rt: &R,
    alloc: Global,
    probes: (Vec<Manual>, Vec<Manual>),
) -> (usize, [Option<Wrong>; 3]) {
    let (hall, first, second) = two_seats(rt, alloc, 100, probes, None);
    let visit = Visit {
        guest: first,
        heard: None,
        rows: &REGISTERED,
    };
    let (mut first, note, of_first) = tell_in_a_thread(rt, &hall, visit);
    let visit = Visit {
        guest: second,
        heard: Some(note),
        rows: &HEARD_OF_ONE,
    };
    let (second, note, of_second) = tell_in_a_thread(rt, &hall, visit);
    hall.meet(&mut first.seat, note);
    let met = wrong_of(rt, &hall, &mut first, &HEARD_OF_TWO);
    let (hall, seat) = close_too_early(rt, alloc, hall, first.seat);
    let closed = close(rt, alloc, hall, seat, second.seat);
    (closed.desk.journal().len(), [of_first, of_second, met])
}

fn one_manual(rt: &impl Abort, alloc: Global) -> (Vec<Manual>, Vec<Manual>) {
    let probes = Vec::from_array(alloc, [Manual::new()]).expect(rt, "memory");
    (probes, Vec::new(alloc))
}

#[test]
fn a_seat_sees_what_a_note_tells(rt: HostRuntime) {
    let alloc = rt.alloc();
    let told = told_through_notes(&rt, alloc, one_manual(&rt, alloc));
    same(&rt, &told, &(2, [None; 3]), &"the notes");
}

/// What the first seat does before a watch is opened, before its first step and before its second.
static BESIDE: [[Row; 1]; 3] = [
    [(Act::Register("a"), DONE)],
    [(Act::Set("a", Setting::Down), DONE)],
    [(Act::Set("a", Setting::Up), DONE)],
];

/// What the second seat is answered then.
static BESIDE_THAT: [Row; 1] = [(Act::Check("a"), Found::Check(3, Some(Serving::Serving)))];

/// What the opening and three steps of a watch showed.
type Shown = (Serving, [Option<Serving>; 3]);

/// What the second seat's watch is shown beside the first seat's changes, and the rows that went otherwise.
fn shown_beside_changes<R: Wait + Abort>(
    rt: &R,
    alloc: Global,
    probes: (Vec<Manual>, Vec<Manual>),
) -> (Shown, [Option<Wrong>; 4]) {
    let [before, early, late] = &BESIDE;
    let (hall, mut first, mut second) = two_seats(rt, alloc, 100, probes, None);
    let wrong_before = wrong_of(rt, &hall, &mut first, before);
    let (mut watch, opening) = hall.open(rt, &mut second.seat, "a");
    let wrong_early = wrong_of(rt, &hall, &mut first, early);
    let step = hall.step(rt, &mut second.seat, &mut watch);
    let wrong_late = wrong_of(rt, &hall, &mut first, late);
    let wrong_then = wrong_of(rt, &hall, &mut second, &BESIDE_THAT);
    let next = hall.step(rt, &mut second.seat, &mut watch);
    let last = hall.step(rt, &mut second.seat, &mut watch);
    (
        (opening, [step, next, last]),
        [wrong_before, wrong_early, wrong_late, wrong_then],
    )
}

/// The seats never meet: one that was answered from what it saw last would not be shown the changes of the other.
#[test]
fn a_seat_sees_what_another_sets(rt: HostRuntime) {
    let alloc = rt.alloc();
    let (shown, wrong) = shown_beside_changes(&rt, alloc, one_manual(&rt, alloc));
    let steps = [Some(Serving::NotServing), Some(Serving::Serving), None];
    same(&rt, &shown, &(Serving::Serving, steps), &"the watch");
    same(&rt, &wrong, &[None; 4], &"the rows");
}

/// A rule that is not lawful either.
static NOT_LISTED: [Row; 2] = [
    (
        Act::Register("zz"),
        Found::Change(
            Err(Refusal::NotListed),
            Some((Rule::Threshold(0, 1, Start::Up), false)),
        ),
    ),
    (Act::Made, Found::Made(0)),
];

#[test]
fn a_name_that_is_not_listed_is_refused_first(rt: HostRuntime) {
    let alloc = rt.alloc();
    let probe = Threshold::new(0, 1, Start::Up);
    let probes = Vec::from_array(alloc, [probe]).expect(&rt, "memory");
    let probes = (probes, Vec::new(alloc));
    let (hall, mut first, _second) = two_seats(&rt, alloc, 100, probes, None);
    let wrong = wrong_of(&rt, &hall, &mut first, &NOT_LISTED);
    same(&rt, &wrong, &None, &"the rows");
}
