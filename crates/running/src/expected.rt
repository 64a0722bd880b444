//! What the script of a run expects to be heard.

ghost use Rattle.std.specs.Prelude.{◌≡◌, ◌≢◌, [], Some, IfOk, IfErr, IsOk};
ghost use Rattle.script.specs.Expected.{expected_first, first_refused};
ghost use Rattle.script.specs.declared.script_fault.ScriptFault.TheVariants.{NoMemory};
ghost use Rattle.running.specs.Expected.{IsExpectedBy, IsUnexpected};

use crate::run_failure::{RunFailure, failure_by};
use desk_core::Keep;
use diary::{Diary, Setup};
use live_run::{Gauges, RefusedLine, WatchdogLoop};
use live_server::News;
use log_lines::Outlet;
use probe_core::Probe;
use script::{Expected, Mode, RefusedExpectation, Script, ScriptFault, expected_of, read_script};
use server::SetUpHall;
use std::alloc::{AllocError, Global};
use std::io;
use std::net::Net;
use std::sync::Arc;
use std::time::Clock;
use watchdog::{Expectations, Watchdog, Wish};

/// What a script expects behind its last line, or the first of its lines `expect` that does not stand. Bytes that are no script expect
/// nothing.
pub fn expected_in(
    alloc: Global,
    bytes: &[u8],
) -> Result<Result<Vec<Expected>, RefusedLine>, AllocError>
    ensures expected { IfOk result (λ found. IfOk found (λ expected.
        IsExpectedBy bytes.now expected.items)) }
    ensures refused { IfOk result (λ found. IfErr found (IsUnexpected bytes.now)) }
{
    match read_script(alloc, bytes, Mode::Run) {
        Ok(script) => expected_by(alloc, &script),
        Err(fault) => nothing(alloc, fault),
    }
}

/// The same of a script.
fn expected_by(
    alloc: Global,
    script: &Script,
) -> Result<Result<Vec<Expected>, RefusedLine>, AllocError>
    ensures expected { IfOk result (λ found. IfOk found (λ expected. expected.items
        ≡ expected_first script.now.names script.now.lines script.now.expectations 16)) }
    ensures refused { IfOk result (λ found. IfErr found (λ line.
        first_refused script.now.names script.now.lines script.now.expectations
        ≡ Some (record { number = line.number; answer = line.answer }))) }
{
    match expected_of(alloc, script)? {
        Ok(expected) => Ok(Ok(expected)),
        Err(RefusedExpectation { number, answer }) => Ok(Err(RefusedLine { number, answer })),
    }
}

/// What bytes expect that are no script.
fn nothing(
    alloc: Global,
    fault: ScriptFault,
) -> Result<Result<Vec<Expected>, RefusedLine>, AllocError>
    ensures none { IfOk result (λ found. IfOk found (λ expected.
        (fault ≢ NoMemory) × (expected.items ≡ []))) }
    ensures some { IfOk result (λ found. IsOk found) }
{
    match fault {
        ScriptFault::NoMemory => Err(AllocError),
        _ => Ok(Ok(Vec::new(alloc))),
    }
}

/// The failure of a setup whose script has an expectation that does not stand: what was refused before it comes first.
pub fn first_failure<'a>(setup: Option<RunFailure<'a>>, line: RefusedLine) -> RunFailure<'a> {
    if is_behind(&setup, line) {
        return RunFailure::Refused(line);
    }
    setup.unwrap_or(RunFailure::Refused(line))
}

/// Whether a setup failed by a line behind this one.
fn is_behind(setup: &Option<RunFailure<'_>>, line: RefusedLine) -> bool {
    match setup {
        Some(RunFailure::Refused(other)) => line.number < other.number,
        Some(_) | None => false,
    }
}

/// A watchdog, and what it is told is expected.
#[derive(Drop)]
pub struct Watching {
    pub watchdog: WatchdogLoop,
    pub expectations: Arc<Expectations>,
}

impl Watching {
    ghost use Rattle.std.specs.Prelude.{◌≡◌, None, Some, IsFalse, IsTrue};

    /// The same, with a diary of a server that these gauges are of, which writes to this outlet, if there is one.
    pub(crate) fn telling(
        self,
        alloc: Global,
        outlet: Option<Outlet>,
        setup: Setup,
        gauges: Gauges,
    ) -> Result<Watching, AllocError> {
        let diary = Diary::new(alloc, outlet, self.expectations.clone()?, setup)?;
        Ok(Watching {
            watchdog: self.watchdog.with_diary(diary, gauges),
            expectations: self.expectations,
        })
    }

    /// The watchdog, where it is needed.
    pub(crate) fn needed(self, is_needed: bool) -> Option<WatchdogLoop>
        ensures unneeded { IsFalse is_needed → result ≡ None }
        ensures needed { IsTrue is_needed → result ≡ Some self.watchdog }
    {
        if is_needed { Some(self.watchdog) } else { None }
    }
}

/// How many entries the setup made.
pub(crate) fn entries_of<P: Probe, K: Keep>(made: &SetUpHall<P, K>) -> u32 {
    u32::try_from(made.results().len()).unwrap_or(u32::MAX)
}

/// A watchdog over a hall that is set up, from whose last entry on this is expected.
pub fn watch_over<'a, R: Net + Clock, P: Probe, K: Keep>(
    rt: &R,
    alloc: Global,
    made: &SetUpHall<P, K>,
    expected: &[Expected],
    expectations: &Arc<Expectations>,
) -> Result<Watching, RunFailure<'a>> {
    let behind = entries_of(made);
    for Expected { slot, seconds } in expected {
        let wish = Wish {
            seconds: *seconds,
            behind,
        };
        expectations.expect(*slot, wish);
    }
    let watchdog = Watchdog::new(alloc, expectations.clone()?)?;
    let expectations = expectations.clone()?;
    match WatchdogLoop::new(rt, alloc, watchdog) {
        Ok(watchdog) => Ok(Watching {
            watchdog,
            expectations,
        }),
        Err(error) => Err(failure_by(error, RunFailure::EventLoop)),
    }
}

/// News that wake the watchdog too.
pub(crate) fn waking<'a>(news: News, watching: &Watching) -> Result<News, RunFailure<'a>> {
    match waking_too(news, watching) {
        Ok(news) => Ok(news),
        Err(error) => Err(failure_by(error, RunFailure::EventLoop)),
    }
}

fn waking_too(news: News, watching: &Watching) -> io::Result<News> {
    let waker = watching.watchdog.waker()?;
    Ok(news.waking(waker)?)
}
