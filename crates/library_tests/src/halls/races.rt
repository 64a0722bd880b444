//! Two seats of a hall, each in a thread of its own.

ghost use Rattle.std.specs.Prelude.{◌≡◌};
ghost use Rattle.hall.specs.Seats.{IsOf};

use crate::halls::guests::{
    Act, Counters, DONE, Found, Guest, Row, Wrong, close, drops_of, first_wrong, two_seats,
    wrong_of,
};
use crate::same::same;
use desk_core::{Finding, Refusal, Reply, Setting};
use hall::{Closed, Hall};
use health_wire::Serving;
use probe_core::tracked::Tracked;
use probe_core::{Depends, Manual, Probe, Rule, Start, Threshold};
use std::alloc::Global;
use std::process::Abort;
use std::sync::atomic::AtomicU64;
use std::sync::{Arc, Wait};
use std::thread;
use std::thread::Threads;

/// What a seat goes through, and how many rows that are.
type Task = (&'static [Row], usize);

/// What two seats of a hall do, and what they find.
struct Race {
    /// The most entries of the journal, and how many it has at the end.
    most: u32,
    entries: usize,
    /// What the first seat does before the threads.
    before: &'static [Row],
    threads: (Task, Task),
    /// What each finds after the threads.
    after: (&'static [Row], &'static [Row]),
}

/// A seat that is back from its thread, with the row that went otherwise.
type Back<P> = (Guest<P>, Option<Wrong>);

fn work<R: Wait, P: Probe>(rt: &R, hall: &Hall<P>, mut guest: Guest<P>, task: Task) -> Back<P>
    requires { IsOf hall.now guest.seat }
    ensures { IsOf hall.now result.0.seat }
{
    let (rows, count) = task;
    let wrong = first_wrong(rt, hall, &mut guest, rows, count);
    (guest, wrong)
}

fn in_two_threads<R: Wait + Threads + Sync, P: Probe + Send>(
    rt: &R,
    hall: &Hall<P>,
    first: Guest<P>,
    second: Guest<P>,
    tasks: (Task, Task),
) -> (Back<P>, Back<P>)
    requires first { IsOf hall.now first.seat }
    requires second { IsOf hall.now second.seat }
    ensures first { IsOf hall.now result.0.0.seat }
    ensures second { IsOf hall.now result.1.0.seat }
{
    let (of_first, of_second) = tasks;
    thread::join(
        rt,
        move || -> (Guest<P>, Option<Wrong>)
            requires { IsOf hall.now first.seat }
            ensures { IsOf hall.entry.now result.0.seat }
        { work(rt, hall, first, of_first) },
        move || -> (Guest<P>, Option<Wrong>)
            requires { IsOf hall.now second.seat }
            ensures { IsOf hall.entry.now result.0.seat }
        { work(rt, hall, second, of_second) },
    )
}

/// What is left of the hall, where all went as the race says.
fn closed_after<R: Wait + Threads + Sync + Abort, P: Probe + Send>(
    rt: &R,
    alloc: Global,
    race: &Race,
    probes: (Vec<P>, Vec<P>),
    counters: Option<Counters>,
) -> Closed<P> {
    let (hall, mut first, second) = two_seats(rt, alloc, race.most, probes, counters);
    let (rows_of_first, rows_of_second) = race.after;
    let before = wrong_of(rt, &hall, &mut first, race.before);
    let (first, second) = in_two_threads(rt, &hall, first, second, race.threads);
    let (mut first, in_first) = first;
    let (mut second, in_second) = second;
    let of_first = wrong_of(rt, &hall, &mut first, rows_of_first);
    let of_second = wrong_of(rt, &hall, &mut second, rows_of_second);
    let wrong = [before, in_first, in_second, of_first, of_second];
    same(rt, &wrong, &[None; 5], &"the rows");
    let closed = close(rt, alloc, hall, first.seat, second.seat);
    same(rt, &closed.desk.journal().len(), &race.entries, &"entries");
    closed
}

/// The first seat has two services that are set.
fn expect_of_manuals<R: Wait + Threads + Sync + Abort>(rt: &R, alloc: Global, race: &Race) {
    let probes = Vec::from_array(alloc, [Manual::new(), Manual::new()]).expect(rt, "memory");
    drop(closed_after(rt, alloc, race, (probes, Vec::new(alloc)), None));
}

const SERVING: Option<Serving> = Some(Serving::Serving);

const NOT_SERVING: Option<Serving> = Some(Serving::NotServing);

const DOWN_A: Row = (Act::Set("a", Setting::Down), DONE);

const UP_A: Row = (Act::Set("a", Setting::Up), DONE);

const FLIP_A: &[Row] = &[DOWN_A, UP_A];

/// The first seat met nobody, and its Check tells at once what both threads did.
static FLIPS: Race = Race {
    most: 1_000,
    entries: 201,
    before: &[(Act::Register("a"), DONE)],
    threads: ((FLIP_A, 100), (FLIP_A, 100)),
    after: (
        &[
            (Act::Check("a"), Found::Check(201, SERVING)),
            (Act::Made, Found::Made(101)),
        ],
        &[(Act::Made, Found::Made(100))],
    ),
};

#[test]
fn no_change_of_two_threads_is_lost(rt: HostRuntime) {
    expect_of_manuals(&rt, rt.alloc(), &FLIPS);
}

/// Each thread sets a name that the other does not, and checks it each time.
static CHECKED_FLIPS: Race = Race {
    most: 1_000,
    entries: 402,
    before: &[(Act::Register("a"), DONE), (Act::Register("b"), DONE)],
    threads: (
        (
            &[
                DOWN_A,
                (Act::Show("a"), Found::Show(NOT_SERVING)),
                UP_A,
                (Act::Show("a"), Found::Show(SERVING)),
            ],
            400,
        ),
        (
            &[
                (Act::Set("b", Setting::Down), DONE),
                (Act::Show("b"), Found::Show(NOT_SERVING)),
                (Act::Set("b", Setting::Up), DONE),
                (Act::Show("b"), Found::Show(SERVING)),
            ],
            400,
        ),
    ),
    after: (&[], &[]),
};

#[test]
fn each_thread_is_shown_its_own_changes(rt: HostRuntime) {
    expect_of_manuals(&rt, rt.alloc(), &CHECKED_FLIPS);
}

const FULL: Found = Found::Change(Err(Refusal::Full), None);

const AT_THREE: Row = (Act::Check("a"), Found::Check(3, SERVING));

/// A change of each kind, and checks between them. The probe that is handed in comes back.
const REFUSED: &[Row] = &[
    (
        Act::Register("b"),
        Found::Change(Err(Refusal::Full), Some((Rule::Manual, true))),
    ),
    AT_THREE,
    (Act::Retire("a"), FULL),
    AT_THREE,
    (Act::Observe("a", Finding::Fail), FULL),
    AT_THREE,
    (Act::Set("b", Setting::Down), FULL),
    AT_THREE,
    (Act::Shutdown, FULL),
    AT_THREE,
    (Act::Resume, FULL),
    AT_THREE,
];

static FULL_JOURNAL: Race = Race {
    most: 3,
    entries: 3,
    before: &[
        (Act::Register("a"), DONE),
        (Act::Register("b"), DONE),
        (Act::Register(""), DONE),
    ],
    threads: ((REFUSED, 12), (REFUSED, 12)),
    after: (
        &[(Act::Made, Found::Made(3))],
        &[(Act::Made, Found::Made(0))],
    ),
};

/// The probes of `a`, `b` and the empty name may be of any kind.
fn expect_full<R: Wait + Threads + Sync + Abort, P: Probe + Send>(
    rt: &R,
    alloc: Global,
    of_first: Vec<P>,
    of_second: Vec<P>,
) {
    drop(closed_after(rt, alloc, &FULL_JOURNAL, (of_first, of_second), None));
}

#[test]
fn two_threads_are_refused_at_a_full_journal_and_their_checks_are_answered(rt: HostRuntime) {
    let alloc = rt.alloc();
    let a: Box<dyn Probe + Send> = Box::new(alloc, Threshold::new(2, 1, Start::Up)).expect(
        &rt, "memory",
    );
    let b: Box<dyn Probe + Send> = Box::new(alloc, Manual::new()).expect(&rt, "memory");
    let all: Box<dyn Probe + Send> = Box::new(alloc, Depends::new(3)).expect(&rt, "memory");
    let one: Box<dyn Probe + Send> = Box::new(alloc, Manual::new()).expect(&rt, "memory");
    let other: Box<dyn Probe + Send> = Box::new(alloc, Manual::new()).expect(&rt, "memory");
    let of_first = Vec::from_array(alloc, [one, all, b, a]).expect(&rt, "memory");
    let of_second = Vec::from_array(alloc, [other]).expect(&rt, "memory");
    expect_full(&rt, alloc, of_first, of_second);
}

const MANUAL: Option<(Rule, bool)> = Some((Rule::Manual, true));

const NO_DROP: Row = (Act::Drops, Found::Drops([0, 0, 0, 0]));

const ONE_DROP: Row = (Act::Drops, Found::Drops([1, 0, 0, 0]));

const TWO_DROPS: Row = (Act::Drops, Found::Drops([1, 1, 0, 0]));

const LET_GO: Row = (Act::LetGo, Found::Nothing);

/// One probe is replaced and another retired while another thread checks the name, then one is refused, and one stays.
static BESIDE_CHECKS: Race = Race {
    most: 100,
    entries: 4,
    before: &[(Act::Register("a"), DONE), NO_DROP],
    threads: (
        (
            &[
                (
                    Act::Register("a"),
                    Found::Change(Ok(Reply::Replaced), MANUAL),
                ),
                NO_DROP,
                LET_GO,
                ONE_DROP,
                (Act::Retire("a"), Found::Change(Ok(Reply::Done), MANUAL)),
                ONE_DROP,
                LET_GO,
                TWO_DROPS,
            ],
            8,
        ),
        (&[(Act::IsGoneFrom("a", 3), Found::Is(true))], 10_000),
    ),
    after: (
        &[
            (Act::Register("a"), DONE),
            (
                Act::Register("zz"),
                Found::Change(Err(Refusal::NotListed), MANUAL),
            ),
            TWO_DROPS,
            LET_GO,
            (Act::Drops, Found::Drops([1, 1, 0, 1])),
        ],
        &[],
    ),
};

fn counter(rt: &impl Abort, alloc: Global) -> Arc<AtomicU64> {
    Arc::new(alloc, AtomicU64::new(0)).expect(rt, "memory")
}

fn again(rt: &impl Abort, counter: &Arc<AtomicU64>) -> Arc<AtomicU64> {
    counter.clone().expect(rt, "memory")
}

/// The counters once more.
fn all_again(rt: &impl Abort, counters: &Counters) -> Counters {
    let [a, b, c, d] = counters;
    [again(rt, a), again(rt, b), again(rt, c), again(rt, d)]
}

/// Probes of these counters, the first of them last.
fn tracked(rt: &impl Abort, alloc: Global, counters: Counters) -> Vec<Tracked> {
    let [a, b, c, d] = counters;
    let probes = [
        Tracked::new(d),
        Tracked::new(c),
        Tracked::new(b),
        Tracked::new(a),
    ];
    Vec::from_array(alloc, probes).expect(rt, "memory")
}

/// Each probe has a counter of its own, so that a probe which the hall drops itself is seen.
#[test]
fn a_probe_is_dropped_once_with_what_it_was_given_out_with(rt: HostRuntime) {
    let alloc = rt.alloc();
    let counters = [
        counter(&rt, alloc),
        counter(&rt, alloc),
        counter(&rt, alloc),
        counter(&rt, alloc),
    ];
    let probes = (
        tracked(&rt, alloc, all_again(&rt, &counters)),
        Vec::new(alloc),
    );
    let seen = Some(all_again(&rt, &counters));
    let closed = closed_after(&rt, alloc, &BESIDE_CHECKS, probes, seen);
    same(&rt, &drops_of(&counters), &[1, 1, 0, 1], &"closed");
    drop(closed);
    same(&rt, &drops_of(&counters), &[1, 1, 1, 1], &"dropped");
}
