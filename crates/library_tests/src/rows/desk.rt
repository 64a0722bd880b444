//! A registry, and its probes: what each call answers, what it changes, and what is kept.

ghost use Rattle.probe_core.specs.Made.{IsAsked};

use crate::same::same;
use desk_core::{
    Change, Desk, Finding, Refusal, Reply, Setting, Slot, Watch, board_entries, board_status,
};
use health_wire::Serving;
use probe_core::{Depends, Event, FnMaker, Maker, Manual, Probe, ProbeFn, Rule, Start, Threshold};
use std::alloc::{AllocError, Global};
use std::process::Abort;

/// A change of a registry. Slots are named by their numbers.
#[derive(Clone, Copy)]
enum Act {
    Register(u8, Rule),
    Retire(u8),
    Observe(u8, Finding),
    Set(u8, Setting),
    Shutdown,
    Resume,
}

/// What a change answers, and of the probe that it gives out the rule and whether it is up.
type Answer = (Result<Reply, Refusal>, Option<(Rule, bool)>);

/// A status change: the place of its entry, the slot, and the status from then on.
type Told = (u32, u8, Serving);

/// A change or a question, and what is answered.
enum Row {
    Change(Act, Answer),
    Check(u8, Option<Serving>),
    /// From now on this watch is stepped.
    Open(u8, Serving),
    Step(Option<Serving>),
    Board(u64),
    Entries(usize),
    /// The status changes from this place on.
    Changes(usize, &'static [Told]),
}

const DONE: Answer = (Ok(Reply::Done), None);

const IGNORED: Answer = (Ok(Reply::Ignored), None);

const MISSING: Answer = (Ok(Reply::Missing), None);

const WRONG_KIND: Answer = (Ok(Reply::WrongKind), None);

const FULL: Answer = (Err(Refusal::Full), None);

const SERVING: Option<Serving> = Some(Serving::Serving);

const NOT_SERVING: Option<Serving> = Some(Serving::NotServing);

const FAIL: Row = Row::Change(Act::Observe(0, Finding::Fail), DONE);

const RESUME: Row = Row::Change(Act::Resume, DONE);

const SHUTDOWN: Row = Row::Change(Act::Shutdown, DONE);

/// A service that is down after two failures.
const A: Row = Row::Change(Act::Register(0, Rule::Threshold(2, 1, Start::Up)), DONE);

/// It, a service that is set, and one that depends on both.
const THREE: &[Row] = &[
    A,
    Row::Change(Act::Register(1, Rule::Manual), DONE),
    Row::Change(Act::Register(2, Rule::Depends(3)), DONE),
];

const FAILED: &[Row] = &[
    FAIL,
    FAIL,
    Row::Changes(
        0,
        &[
            (0, 0, Serving::Serving),
            (1, 1, Serving::Serving),
            (2, 2, Serving::Serving),
            (4, 0, Serving::NotServing),
            (4, 2, Serving::NotServing),
        ],
    ),
    Row::Board(21_474_836_518),
];

const RETIRED: &[Row] = &[
    Row::Open(1, Serving::Serving),
    Row::Change(
        Act::Retire(1),
        (Ok(Reply::Done), Some((Rule::Manual, true))),
    ),
    Row::Check(1, None),
    Row::Check(2, NOT_SERVING),
    Row::Step(Some(Serving::ServiceUnknown)),
    Row::Change(Act::Retire(1), MISSING),
    Row::Entries(5),
];

const SHUT_DOWN: &[Row] = &[
    A,
    SHUTDOWN,
    Row::Check(0, NOT_SERVING),
    Row::Change(Act::Observe(0, Finding::Fail), IGNORED),
    Row::Change(Act::Observe(0, Finding::Fail), IGNORED),
    RESUME,
    Row::Check(0, SERVING),
    Row::Entries(5),
];

const SET: &[Row] = &[
    Row::Open(1, Serving::Serving),
    Row::Change(Act::Set(1, Setting::Down), DONE),
    Row::Change(Act::Set(1, Setting::Up), DONE),
    Row::Step(NOT_SERVING),
    Row::Step(SERVING),
    Row::Step(None),
];

/// A probe that is refused comes back.
const AT_THE_LIMIT: &[Row] = &[
    Row::Change(
        Act::Register(1, Rule::Manual),
        (Err(Refusal::Full), Some((Rule::Manual, true))),
    ),
    Row::Check(0, SERVING),
    Row::Board(12_884_901_909),
    Row::Entries(3),
];

const NO_ENTRY: &[Row] = &[Row::Change(Act::Shutdown, FULL), Row::Entries(0)];

const NOBODY: &[Row] = &[Row::Change(Act::Observe(0, Finding::Pass), MISSING)];

/// The probe that comes back has heard what came before it was replaced.
const REPLACED: &[Row] = &[
    Row::Change(Act::Set(0, Setting::Up), WRONG_KIND),
    Row::Change(Act::Observe(2, Finding::Pass), WRONG_KIND),
    Row::Change(Act::Set(1, Setting::Down), DONE),
    SHUTDOWN,
    Row::Change(
        Act::Register(1, Rule::Manual),
        (Ok(Reply::Replaced), Some((Rule::Manual, false))),
    ),
    Row::Check(1, NOT_SERVING),
    RESUME,
    Row::Check(1, SERVING),
    Row::Entries(9),
];

/// The first is down after a failure, and each other one depends on that before it.
const CHAIN: &[Row] = &[
    Row::Change(Act::Register(0, Rule::Threshold(1, 1, Start::Up)), DONE),
    Row::Change(Act::Register(1, Rule::Depends(1)), DONE),
    Row::Change(Act::Register(2, Rule::Depends(2)), DONE),
    Row::Change(Act::Register(3, Rule::Depends(4)), DONE),
    Row::Change(Act::Register(4, Rule::Depends(8)), DONE),
    Row::Change(Act::Register(5, Rule::Depends(16)), DONE),
    Row::Change(Act::Register(6, Rule::Depends(32)), DONE),
    Row::Change(Act::Register(7, Rule::Depends(64)), DONE),
    Row::Change(Act::Register(8, Rule::Depends(128)), DONE),
    Row::Change(Act::Register(9, Rule::Depends(256)), DONE),
    Row::Change(Act::Register(10, Rule::Depends(512)), DONE),
    Row::Change(Act::Register(11, Rule::Depends(1_024)), DONE),
    Row::Change(Act::Register(12, Rule::Depends(2_048)), DONE),
    Row::Change(Act::Register(13, Rule::Depends(4_096)), DONE),
    Row::Change(Act::Register(14, Rule::Depends(8_192)), DONE),
    Row::Change(Act::Register(15, Rule::Depends(16_384)), DONE),
];

const CHAIN_FAILED: &[Row] = &[
    FAIL,
    Row::Changes(
        16,
        &[
            (16, 0, Serving::NotServing),
            (16, 1, Serving::NotServing),
            (16, 2, Serving::NotServing),
            (16, 3, Serving::NotServing),
            (16, 4, Serving::NotServing),
            (16, 5, Serving::NotServing),
            (16, 6, Serving::NotServing),
            (16, 7, Serving::NotServing),
            (16, 8, Serving::NotServing),
            (16, 9, Serving::NotServing),
            (16, 10, Serving::NotServing),
            (16, 11, Serving::NotServing),
            (16, 12, Serving::NotServing),
            (16, 13, Serving::NotServing),
            (16, 14, Serving::NotServing),
            (16, 15, Serving::NotServing),
        ],
    ),
    Row::Board(75_877_755_562),
    Row::Change(
        Act::Retire(7),
        (Ok(Reply::Done), Some((Rule::Depends(64), true))),
    ),
    Row::Changes(32, &[(17, 7, Serving::ServiceUnknown)]),
    Row::Board(80_172_690_090),
    RESUME,
    Row::Changes(
        33,
        &[
            (18, 0, Serving::Serving),
            (18, 1, Serving::Serving),
            (18, 2, Serving::Serving),
            (18, 3, Serving::Serving),
            (18, 4, Serving::Serving),
            (18, 5, Serving::Serving),
            (18, 6, Serving::Serving),
        ],
    ),
    Row::Board(84_467_651_925),
];

/// A service that starts unknown, and one that depends on it. What is ignored in a shutdown is not heard later.
const UNKNOWN: &[Row] = &[
    Row::Change(
        Act::Register(0, Rule::Threshold(2, 1, Start::Unknown)),
        DONE,
    ),
    Row::Change(Act::Register(1, Rule::Depends(1)), DONE),
    SHUTDOWN,
    Row::Change(Act::Observe(0, Finding::Pass), IGNORED),
    RESUME,
    FAIL,
    RESUME,
    Row::Changes(
        0,
        &[
            (0, 0, Serving::Unknown),
            (1, 1, Serving::NotServing),
            (2, 0, Serving::NotServing),
            (4, 0, Serving::Unknown),
            (5, 0, Serving::Serving),
            (5, 1, Serving::Serving),
            (6, 0, Serving::Unknown),
            (6, 1, Serving::NotServing),
        ],
    ),
    Row::Board(30_064_771_083),
];

/// The most entries of a registry, and what it goes through.
static TABLES: [(u32, &[Row], &[Row]); 10] = [
    (100, THREE, FAILED),
    (100, THREE, RETIRED),
    (100, &[], SHUT_DOWN),
    (100, THREE, SET),
    (3, THREE, AT_THE_LIMIT),
    (0, &[], NO_ENTRY),
    (100, &[], NOBODY),
    (100, THREE, REPLACED),
    (100, CHAIN, CHAIN_FAILED),
    (100, &[], UNKNOWN),
];

fn slot(rt: &impl Abort, number: u8) -> Slot {
    Slot::new(number).expect(rt, "a slot")
}

fn told_of<P: Probe>(probe: Option<P>) -> Option<(Rule, bool)> {
    let probe = probe?;
    Some((probe.rule(), probe.is_up()))
}

fn register<P: Probe>(desk: &mut Desk<P>, slot: Slot, probe: P) -> Answer {
    match desk.register(0, slot, probe) {
        Ok(taken) => (Ok(taken.reply), told_of(taken.old)),
        Err(handed) => (Err(handed.refusal), told_of(Some(handed.probe))),
    }
}

fn retire<P: Probe>(desk: &mut Desk<P>, slot: Slot) -> Answer {
    match desk.retire(0, slot) {
        Ok((reply, old)) => (Ok(reply), told_of(old)),
        Err(refusal) => (Err(refusal), None),
    }
}

fn change<P: Probe>(
    rt: &impl Abort,
    desk: &mut Desk<P>,
    maker: &impl Maker<P>,
    act: Act,
) -> Answer {
    let answer = match act {
        Act::Register(number, rule) => {
            let probe = maker.make(rule).expect(rt, "memory");
            return register(desk, slot(rt, number), probe);
        }
        Act::Retire(number) => return retire(desk, slot(rt, number)),
        Act::Observe(number, finding) => desk.observe(0, slot(rt, number), finding),
        Act::Set(number, setting) => desk.set(0, slot(rt, number), setting),
        Act::Shutdown => desk.shutdown(0),
        Act::Resume => desk.resume(0),
    };
    (answer, None)
}

fn expect_changes(rt: &impl Abort, changes: &[Change], expected: &[Told]) {
    same(rt, &changes.len(), &expected.len(), &"the changes");
    for (change, told) in changes.iter().zip(expected) {
        let found = (change.at, change.slot.number(), change.status);
        same(rt, &found, told, &"a change");
    }
}

/// Where a row is: its table, and its place there.
type Place = (usize, usize);

fn expect<P: Probe>(
    rt: &impl Abort,
    desk: &mut Desk<P>,
    maker: &impl Maker<P>,
    watch: &mut Watch,
    row: &Row,
    place: Place,
) {
    match row {
        Row::Change(act, answer) => same(rt, &change(rt, desk, maker, *act), answer, &place),
        Row::Check(number, status) => {
            same(rt, &desk.check(Some(slot(rt, *number))), status, &place);
        }
        Row::Open(number, status) => {
            let (opened, shown) = desk.open(Some(slot(rt, *number)));
            *watch = opened;
            same(rt, &shown, status, &place);
        }
        Row::Step(status) => same(rt, &desk.step(watch), status, &place),
        Row::Board(word) => same(rt, &desk.board(), word, &place),
        Row::Entries(count) => same(rt, &desk.journal().len(), count, &place),
        Row::Changes(from, expected) => {
            let changes = desk.changes().get(*from..).expect(rt, "changes");
            expect_changes(rt, changes, *expected);
        }
    }
}

/// Goes through the rows of a table, each at a registry that those before it changed.
fn expect_rows<P: Probe>(
    rt: &impl Abort,
    desk: &mut Desk<P>,
    maker: &impl Maker<P>,
    watch: &mut Watch,
    table: usize,
    rows: &[Row],
) {
    for (index, row) in rows.iter().enumerate() {
        expect(rt, desk, maker, watch, row, (table, index));
    }
}

fn expect_tables<P: Probe>(rt: &impl Abort, alloc: Global, maker: &impl Maker<P>) {
    for (table, (most, first, rows)) in TABLES.iter().enumerate() {
        let mut desk = Desk::new(alloc, *most);
        let (mut watch, _) = desk.open(None);
        expect_rows(rt, &mut desk, maker, &mut watch, table, *first);
        expect_rows(rt, &mut desk, maker, &mut watch, table, *rows);
    }
}

fn expect_tables_of<P: Probe, F: ProbeFn<Made = P> + Drop>(rt: &impl Abort, alloc: Global, make: F)
    requires { F.makes_asked make }
{
    let maker = FnMaker::new(make);
    expect_tables(rt, alloc, &maker);
}

#[test]
fn a_registry_answers_and_keeps_what_its_history_says(rt: HostRuntime) {
    let alloc = rt.alloc();
    let make = |rule: Rule| -> Result<Box<dyn Probe + Send>, AllocError>
        ensures { IsAsked (λ probe. (Probe-box probe).rule probe.value) (λ probe. (Probe-box probe).memory probe.value) rule result }
    {
        let probe: Box<dyn Probe + Send> = match rule {
            Rule::Threshold(fall, rise, start) => Box::new(
                alloc,
                Threshold::new(fall, rise, start),
            )?,
            Rule::Manual => Box::new(alloc, Manual::new())?,
            Rule::Depends(mask) => Box::new(alloc, Depends::new(mask))?,
        };
        Ok(probe)
    };
    expect_tables_of(&rt, alloc, make);
}

/// Boards, with their entries and the statuses of the first slots. The others have none.
static BOARDS: [(u64, u32, &[Serving]); 5] = [
    (
        21_474_836_518,
        5,
        &[Serving::NotServing, Serving::Serving, Serving::NotServing],
    ),
    (12_884_901_909, 3, &[Serving::Serving; 3]),
    (0, 0, &[]),
    (30_064_771_083, 7, &[Serving::Unknown, Serving::NotServing]),
    (u64::MAX, 4_294_967_295, &[Serving::Unknown; 16]),
];

#[test]
fn a_board_tells_entries_and_statuses(rt: HostRuntime) {
    for &(word, entries, statuses) in &BOARDS {
        same(&rt, &board_entries(word), &entries, &word);
        for number in 0..Slot::COUNT {
            let status = statuses.get(usize::from(number)).copied();
            let found = board_status(word, slot(&rt, number));
            same(&rt, &found, &status, &(word, number));
        }
    }
}

/// An event, whether it fits, and what is remembered after it.
type Heard = (Event, bool, u32);

/// Of a service that falls and rises so, what it hears. While it is up it remembers its failures in a row, and while it is down, how many
/// it took and the passes in a row after them.
static HEARD: [(u32, u32, &[Heard]); 2] = [
    (
        2,
        1,
        &[
            (Event::Fail, true, 1),
            (Event::Pass, true, 0),
            (Event::Fail, true, 1),
            (Event::Fail, true, 2),
            (Event::Fail, true, 2),
            (Event::Up, false, 2),
        ],
    ),
    (
        2,
        2,
        &[
            (Event::Fail, true, 1),
            (Event::Fail, true, 2),
            (Event::Pass, true, 3),
            (Event::Fail, true, 2),
            (Event::Pass, true, 3),
            (Event::Pass, true, 0),
        ],
    ),
];

/// What a service remembers, by how many events more turn it.
fn memory_of(mut probe: Threshold, fall: u32, rise: u32) -> u32 {
    let was_up = probe.is_up();
    let (event, turns_at) = if was_up {
        (Event::Fail, fall)
    } else {
        (Event::Pass, fall.saturating_add(rise))
    };
    let mut more = 0u32;
    for _ in 0..turns_at {
        if probe.is_up() == was_up {
            probe.note(event);
            more = more.saturating_add(1);
        }
    }
    turns_at.saturating_sub(more)
}

/// A service after these events, and whether the last of them fits.
fn heard(fall: u32, rise: u32, events: &[Heard]) -> (Threshold, bool) {
    let mut probe = Threshold::new(fall, rise, Start::Up);
    let mut fits = true;
    for &(event, _, _) in events {
        fits = probe.note(event);
    }
    (probe, fits)
}

#[test]
fn a_threshold_remembers_its_last_events(rt: HostRuntime) {
    for &(fall, rise, events) in &HEARD {
        for (place, &(_, fits, memory)) in events.iter().enumerate() {
            let front = events.get(..place.saturating_add(1)).unwrap_or(events);
            let (probe, fitted) = heard(fall, rise, front);
            let found = (fitted, memory_of(probe, fall, rise));
            same(&rt, &found, &(fits, memory), &(fall, rise, place));
        }
        let (mut probe, _) = heard(fall, rise, events);
        probe.reset();
        same(&rt, &memory_of(probe, fall, rise), &0, &"a reset");
    }
}

static EVENTS: [Event; 4] = [Event::Pass, Event::Fail, Event::Up, Event::Down];

#[test]
fn nothing_is_heard_of_a_service_that_depends_on_others(rt: HostRuntime) {
    let mut probe = Depends::new(1);
    for event in &EVENTS {
        let found = (probe.note(*event), probe.is_up());
        same(&rt, &found, &(false, true), &"an event");
    }
}
