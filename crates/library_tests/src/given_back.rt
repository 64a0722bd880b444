use crate::same::same;
use desk_core::{Desk, Finding, Setting, Slot};
use probe_core::tracked::Tracked;
use probe_core::{Depends, Event, Manual, Probe, Rule, Start, Threshold};
use std::alloc::Global;
use std::process::Abort;
use std::sync::Arc;
use std::sync::atomic::{AtomicU64, Ordering};

fn slot<R: Abort>(rt: &R, number: u8) -> Slot {
    Slot::new(number).expect(rt, "a slot")
}

fn counter<R: Abort>(rt: &R, alloc: Global) -> Arc<AtomicU64> {
    Arc::new(alloc, AtomicU64::new(0)).expect(rt, "memory")
}

fn expect_drops<R: Abort>(rt: &R, counters: &[Arc<AtomicU64>; 4], expected: [u64; 4]) {
    let [a, b, c, other] = counters;
    let drops = [
        a.load(Ordering::SeqCst),
        b.load(Ordering::SeqCst),
        c.load(Ordering::SeqCst),
        other.load(Ordering::SeqCst),
    ];
    same(rt, &drops, &expected, &"the counters");
}

fn tracked<R: Abort>(rt: &R, counter: &Arc<AtomicU64>) -> Tracked {
    Tracked::new(counter.clone().expect(rt, "memory"))
}

/// Drops what is held. This many probes were dropped before that, and this many after it.
fn expect_held<R: Abort, T: Drop>(
    rt: &R,
    counters: &[Arc<AtomicU64>; 4],
    held: T,
    before: [u64; 4],
    after: [u64; 4],
) {
    expect_drops(rt, counters, before);
    drop(held);
    expect_drops(rt, counters, after);
}

/// Two slots have a probe each. Replaces one of them, retires both slots, and registers a probe where the journal is full.
fn expect_given_back<R: Abort>(
    rt: &R,
    desk: &mut Desk<Tracked>,
    one: Slot,
    two: Slot,
    counters: &[Arc<AtomicU64>; 4],
) {
    let [a, b, c, other] = counters;
    drop(desk.register(0, one, tracked(rt, a)));
    drop(desk.register(0, two, tracked(rt, b)));
    let replaced = desk.register(0, one, tracked(rt, c));
    expect_held(rt, counters, replaced, [0, 0, 0, 0], [1, 0, 0, 0]);
    let retired = desk.retire(0, two);
    expect_held(rt, counters, retired, [1, 0, 0, 0], [1, 1, 0, 0]);
    let retired = desk.retire(0, one);
    expect_held(rt, counters, retired, [1, 1, 0, 0], [1, 1, 1, 0]);
    let refused = desk.register(0, one, tracked(rt, other));
    expect_held(rt, counters, refused, [1, 1, 1, 0], [1, 1, 1, 1]);
}

/// Each probe has a counter of its own, so that wrong bodies are seen here that are seen in no contract: a desk that hands out another
/// probe of the same rule and memory than the one that was registered in that slot, one of its own making
/// (`retire_makes_its_own_box`) or another slot's.
#[test]
fn gives_the_very_probe_back(rt: HostRuntime) {
    let alloc = rt.alloc();
    let counters = [
        counter(&rt, alloc),
        counter(&rt, alloc),
        counter(&rt, alloc),
        counter(&rt, alloc),
    ];
    let mut desk = Desk::new(alloc, 5);
    expect_given_back(&rt, &mut desk, slot(&rt, 1), slot(&rt, 2), &counters);
}

/// A kind of a caller's own: it counts the events that reach it.
#[derive(Drop)]
struct Counted<P: Probe> {
    probe: P,
    notes: Arc<AtomicU64>,
}

impl<P: Probe> Probe for Counted<P> {
    ghost rule = { λ counted. P.rule counted.probe };

    ghost memory = { λ counted. P.memory counted.probe };

    fn rule(&self) -> Rule {
        self.probe.rule()
    }

    fn is_up(&self) -> bool {
        self.probe.is_up()
    }

    fn is_unknown(&self) -> bool {
        self.probe.is_unknown()
    }

    fn note(&mut self, event: Event) -> bool {
        self.notes.fetch_add(1, Ordering::SeqCst);
        self.probe.note(event)
    }

    fn reset(&mut self) {
        self.probe.reset()
    }
}

/// What is done to a desk. Slots are named by their numbers.
#[derive(Clone, Copy)]
enum Row {
    Observe(u8, Finding),
    Set(u8, Setting),
    Shutdown,
    Resume,
}

fn change<R: Abort, P: Probe>(rt: &R, desk: &mut Desk<P>, row: Row) {
    let _ = match row {
        Row::Observe(number, finding) => desk.observe(0, slot(rt, number), finding),
        Row::Set(number, setting) => desk.set(0, slot(rt, number), setting),
        Row::Shutdown => desk.shutdown(0),
        Row::Resume => desk.resume(0),
    };
}

/// A change, and how many events have reached the probes of the slots 1 and 2 then.
type Heard = (Row, [u64; 2]);

/// Of services that are set. An event that is of the wrong kind, ignored, or refused by the full journal reaches no probe; one that
/// leaves the service as it is reaches its probe like any other.
static SETTINGS: [Heard; 9] = [
    (Row::Observe(1, Finding::Fail), [0, 0]),
    (Row::Shutdown, [0, 0]),
    (Row::Set(1, Setting::Down), [0, 0]),
    (Row::Resume, [0, 0]),
    (Row::Set(1, Setting::Up), [1, 0]),
    (Row::Set(2, Setting::Down), [1, 1]),
    (Row::Set(2, Setting::Down), [1, 2]),
    (Row::Set(1, Setting::Down), [2, 2]),
    (Row::Set(1, Setting::Up), [2, 2]),
];

/// The same of services that are checked, and are down after one failure.
static FINDINGS: [Heard; 9] = [
    (Row::Set(1, Setting::Down), [0, 0]),
    (Row::Shutdown, [0, 0]),
    (Row::Observe(1, Finding::Fail), [0, 0]),
    (Row::Resume, [0, 0]),
    (Row::Observe(1, Finding::Pass), [1, 0]),
    (Row::Observe(2, Finding::Fail), [1, 1]),
    (Row::Observe(2, Finding::Fail), [1, 2]),
    (Row::Observe(1, Finding::Fail), [2, 2]),
    (Row::Observe(1, Finding::Pass), [2, 2]),
];

/// Nothing is heard of a service that depends on others.
static NOTHING: [Heard; 2] = [
    (Row::Observe(1, Finding::Pass), [0, 0]),
    (Row::Set(1, Setting::Up), [0, 0]),
];

/// Registers the two probes in the slots 1 and 2, and makes the changes, of which the ninth is refused by the full journal.
fn expect_heard<R: Abort, P: Probe>(rt: &R, alloc: Global, one: P, two: P, rows: &[Heard]) {
    let rule = one.rule();
    let (first, second) = (counter(rt, alloc), counter(rt, alloc));
    let (one, two) = (
        Counted {
            probe: one,
            notes: first.clone().expect(rt, "memory"),
        },
        Counted {
            probe: two,
            notes: second.clone().expect(rt, "memory"),
        },
    );
    let mut desk = Desk::new(alloc, 10);
    drop(desk.register(0, slot(rt, 1), one));
    drop(desk.register(0, slot(rt, 2), two));
    for &(row, expected) in rows {
        change(rt, &mut desk, row);
        let notes = [first.load(Ordering::SeqCst), second.load(Ordering::SeqCst)];
        same(rt, &notes, &expected, &rule);
    }
}

#[test]
fn an_event_reaches_its_probe_once_if_it_is_heard(rt: HostRuntime) {
    let alloc = rt.alloc();
    expect_heard(&rt, alloc, Manual::new(), Manual::new(), &SETTINGS);
    let (one, two) = (
        Threshold::new(1, 1, Start::Up),
        Threshold::new(1, 1, Start::Up),
    );
    expect_heard(&rt, alloc, one, two, &FINDINGS);
    expect_heard(&rt, alloc, Depends::new(1), Depends::new(1), &NOTHING);
}

/// A boxed probe that hears a setting and is dropped then.
fn drop_down<P: Probe>(mut probe: P) -> bool {
    probe.note(Event::Down) && !probe.is_up()
}

#[test]
fn counts_a_dropped_probe_once(rt: HostRuntime) {
    let alloc: Global = rt.alloc();
    let drops = counter(&rt, alloc);
    let tracked = Tracked::new(drops.clone().expect(&rt, "memory"));
    let probe: Box<dyn Probe + Send> = Box::new(alloc, tracked).expect(&rt, "memory");
    let found = (drop_down(probe), drops.load(Ordering::SeqCst));
    same(
        &rt,
        &found,
        &(true, 1),
        &"a setting, and the drops behind it",
    );
}
