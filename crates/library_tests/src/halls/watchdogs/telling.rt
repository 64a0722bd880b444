//! What a diary tells of a hall, at readings of the clock that a test picks.

ghost use Rattle.hall.specs.Seats.{IsOf};

use crate::halls::watchdogs::making::expectations;
use crate::halls::watchdogs::reading::At;
use crate::names::catalogue;
use crate::same::holds;
use chronicle::Who;
use desk_core::{Finding, KeepMany, Refusal};
use diary::{Diary, Ending, Held, Setup};
use hall::{Hall, Seat};
use log_lines::Outlet;
use probe_core::{Start, Threshold};
use std::alloc::Global;
use std::io;
use std::io::{PipeWriter, Read};
use std::os::fd::AsRawFd;
use std::process::Abort;
use std::rt::Files;
use std::sync::{Arc, Wait};
use watchdog::Expectations;

/// What comes about, by the session 3 where it is a change.
#[derive(Clone, Copy)]
enum Step {
    Pass(&'static str),
    Fail(&'static str),
    /// A fail of which it is not known who asked for it.
    FailUnnoted(&'static str),
    /// A fail by the watchdog's seat.
    OwnFail(&'static str),
    /// So many times a fail and a pass.
    Many(&'static str, u32),
    /// So many changes are refused.
    Refused(Refusal, u32),
    /// The diary is called at this reading.
    Follow(u64),
    /// It is called once more, and the server ends so.
    End(u64, Ending),
}

use Ending::{LacksThreads, Stopped, StoppedEarly};
use Step::{End, Fail as Fails, FailUnnoted, Follow, Many, OwnFail, Pass, Refused};

/// A server that holds nothing.
const NOTHING: Held = Held {
    connections: 0,
    watches: 0,
    sessions: 0,
};

/// Whoever makes changes and tells.
#[derive(Drop)]
struct Scene<'a, R> {
    rt: &'a R,
    hall: &'a Hall<Threshold, KeepMany>,
    diary: &'a mut Diary,
    own: &'a mut Seat<Threshold, KeepMany>,
    others: &'a mut Seat<Threshold, KeepMany>,
    expectations: &'a Expectations,
    /// The place of the next entry.
    place: u32,
    ghost own_fits: { IsOf hall.now own.now },
    ghost others_fit: { IsOf hall.now others.now },
}

impl<R: Wait> Scene<'_, R> {
    fn take(&mut self, step: Step) {
        match step {
            Pass(name) => self.change(name, Finding::Pass),
            Fails(name) => self.change(name, Finding::Fail),
            FailUnnoted(name) => self.report(name, Finding::Fail),
            OwnFail(name) => self.fail_by_own(name),
            Many(name, count) => {
                for _ in 0..count {
                    self.change(name, Finding::Fail);
                    self.change(name, Finding::Pass);
                }
            }
            Refused(refusal, count) => self.refuse(refusal, count),
            Follow(millis) => {
                let clock = At(millis);
                self.diary
                    .follow(self.rt, &clock, self.hall, self.own, NOTHING);
            }
            End(millis, ending) => {
                let clock = At(millis);
                self.diary
                    .end(self.rt, &clock, self.hall, self.own, NOTHING, ending);
            }
        }
    }

    fn report(&mut self, name: &str, finding: Finding) {
        let _ = self.hall.observe(self.rt, self.others, name, finding);
        self.place = self.place.saturating_add(1);
    }

    /// Takes down who makes the next entry.
    fn note(&self, who: Who) {
        let chronicle = self.expectations.chronicle();
        chronicle.note(self.place, 2_000, who);
    }

    /// A change of the session 3.
    fn change(&mut self, name: &str, finding: Finding) {
        self.note(Who::Session(3));
        self.report(name, finding);
    }

    fn fail_by_own(&mut self, name: &str) {
        self.note(Who::Expiry);
        let _ = self.hall.observe(self.rt, self.own, name, Finding::Fail);
        self.place = self.place.saturating_add(1);
    }

    fn refuse(&self, refusal: Refusal, count: u32) {
        let chronicle = self.expectations.chronicle();
        for _ in 0..count {
            chronicle.refuse(1_000, Who::Session(3), refusal as u8);
        }
    }
}

/// Plays the steps by the seat of the watchdog and another, over a hall that is set up.
fn play_over<R: Wait>(
    rt: &R,
    hall: &Hall<Threshold, KeepMany>,
    own: &mut Seat<Threshold, KeepMany>,
    others: &mut Seat<Threshold, KeepMany>,
    diary: &mut Diary,
    expectations: &Expectations,
    steps: &[Step],
)
    requires own { IsOf hall.now own.old }
    requires others { IsOf hall.now others.old }
{
    let mut scene = Scene {
        rt,
        hall,
        diary,
        own,
        others,
        expectations,
        place: 2,
    };
    for step in steps {
        scene.take(*step);
    }
}

/// Has a seat register `db`, which falls by two fails, and `api`, by one.
fn set_up<R: Wait>(rt: &R, hall: &Hall<Threshold, KeepMany>, seat: &mut Seat<Threshold, KeepMany>)
    requires ours { IsOf hall.now seat.old }
    ensures ours { IsOf hall.now seat.new }
{
    let _ = hall.register(rt, seat, "db", Threshold::new(2, 1, Start::Up));
    let _ = hall.register(rt, seat, "api", Threshold::new(1, 1, Start::Up));
}

/// Plays the steps over a hall that is set up, and tells what comes about to this end of a pipe.
fn play<R: Wait + Abort>(rt: &R, alloc: Global, end: &PipeWriter, steps: &[Step]) {
    let shared = expectations(rt, alloc);
    let handle: Result<Arc<Expectations>, _> = shared.clone();
    let handle = handle.expect(rt, "a handle");
    let outlet = Outlet {
        descriptor: end.as_raw_fd(),
        is_shared: true,
        is_journal: false,
    };
    let setup = Setup {
        address: "127.0.0.1:8080".parse().expect(rt, "an address"),
        entries: 2,
        most: u32::MAX,
        room: NOTHING,
    };
    let mut diary = Diary::new(alloc, Some(outlet), handle, setup).expect(rt, "memory");
    let catalogue = catalogue(rt, alloc, &["db", "api", ""]);
    let made = Hall::<Threshold, KeepMany>::new(alloc, catalogue, u32::MAX, 2);
    let (hall, mut seats) = made.expect(rt, "a hall");
    let mut others = seats.pop().expect(rt, "a seat");
    let mut own = seats.pop().expect(rt, "a seat");
    set_up(rt, &hall, &mut own);
    play_over(rt, &hall, &mut own, &mut others, &mut diary, &shared, steps);
}

/// All that is told where the steps are played so, without the times, each of which is so long with the space behind it.
fn told<R: Wait + Files + Abort>(rt: &R, alloc: Global, steps: &[Step]) -> String {
    const TIME: usize = 28;
    let (mut reader, end) = io::pipe(rt).expect(rt, "a pipe");
    play(rt, alloc, &end, steps);
    drop(end);
    let mut lines = String::new(alloc);
    reader.read_to_string(&mut lines).expect(rt, "what is told");
    let mut text = String::new(alloc);
    for line in lines.lines() {
        let behind = line.get(TIME..).unwrap_or("no time");
        text.push_str(behind).expect(rt, "memory");
        text.push('\n').expect(rt, "memory");
    }
    text
}

/// What is told last.
static ROWS: &[(&str, &[Step], &str)] = &[
    (
        "the server ends right after it began",
        &[End(1, Stopped)],
        "\
INFO  serving on 127.0.0.1:8080, 3 services, 2 entries
INFO  ended: stopped
",
    ),
    (
        "the server lacks a thread, and has not served",
        &[Pass("api"), End(1, LacksThreads)],
        "INFO  ended: too few threads\n",
    ),
    (
        "the server is told to stop before it serves",
        &[Pass("api"), End(1, StoppedEarly)],
        "INFO  ended: stopped\n",
    ),
    (
        "it is left for the next time until it is known who asked",
        &[FailUnnoted("api"), Follow(7)],
        "\
INFO  serving on 127.0.0.1:8080, 3 services, 2 entries
",
    ),
    (
        "nobody knows who asked, also not the next time",
        &[FailUnnoted("api"), Pass("api"), Follow(7), Follow(8)],
        "\
INFO  serving on 127.0.0.1:8080, 3 services, 2 entries
WARN  api: serving -> not_serving, entry 2 (-: fail api)
INFO  api: not_serving -> serving, entry 3 (session 3: pass api)
",
    ),
    (
        "fails of one service between others, and again behind a report",
        &[
            OwnFail("db"),
            Pass("api"),
            OwnFail("db"),
            Pass("db"),
            OwnFail("db"),
            OwnFail("api"),
            Follow(1),
        ],
        "\
INFO  serving on 127.0.0.1:8080, 3 services, 2 entries
WARN  db: not heard from, 2 fails made, entry 4
WARN  db: serving -> not_serving, entry 4 (expiry: fail db)
INFO  db: not_serving -> serving, entry 5 (session 3: pass db)
WARN  db: not heard from, 1 fail made, entry 6
WARN  api: not heard from, 1 fail made, entry 7
WARN  api: serving -> not_serving, entry 7 (expiry: fail api)
",
    ),
    (
        "more entries than are told at a time, at the end",
        &[Follow(1), Many("api", 1_500), End(2, Stopped)],
        "\
WARN  2901 lines left out
INFO  ended: stopped
",
    ),
    (
        "refusals that no client brings about",
        &[
            Refused(Refusal::NoMemory, 1),
            Refused(Refusal::NotStored, 1),
            Follow(1),
        ],
        "\
INFO  serving on 127.0.0.1:8080, 3 services, 2 entries
WARN  a change of session 3 was refused: no memory
WARN  a change of session 3 was refused: not stored
",
    ),
    (
        "more refusals than are kept",
        &[
            Follow(1),
            Refused(Refusal::Full, 1_030),
            Follow(1_001),
            Follow(2_001),
        ],
        "\
WARN  a change of session 3 was refused: full
WARN  925 lines left out
",
    ),
    (
        "entries are forgotten, and the status that was skipped is known",
        &[
            Follow(1),
            Many("api", 33_000),
            Fails("api"),
            Follow(2),
            Pass("api"),
            Follow(3),
        ],
        "\
WARN  66001 entries forgotten before being told
INFO  api: not_serving -> serving, entry 66003 (session 3: pass api)
",
    ),
];

#[test]
fn tells_what_nobody_noted_what_was_left_out_and_what_is_forgotten(rt: HostRuntime) {
    for (name, steps, expected) in ROWS {
        let text = told(&rt, rt.alloc(), steps);
        let is_told = text.as_bytes().ends_with(expected.as_bytes());
        holds(&rt, is_told, name);
    }
}
