ghost use Rattle.std.specs.Prelude.{◌≡◌, ◌≢◌};
ghost use Rattle.std.specs.IoError.{error_kind};
ghost use Rattle.control.specs.declared.cause.Cause.{Cause};
ghost use Rattle.running.specs.declared.run_failure.RunFailure.TheVariants.{OutOfMemory};
ghost use Rattle.running.specs.RunFailure.{IsScriptFailure};

use crate::journal_cause::JournalCause;
use crate::run_options::Source;
use control::{Cause, Place};
use desk_core::{Refusal, Reply};
use durable::OpeningFault;
use live_run::RefusedLine;
use script::{ScriptFault, changed_text, explain};
use std::alloc::{AllocError, AllocFailed, Global};
use std::io::ErrorKind;
use std::{fmt, io};
use thiserror::Error;

/// What ends the command `run` with status 1. Its text follows `healthd: ` on standard error.
#[derive(Drop, Error)]
pub enum RunFailure<'a> {
    #[error("read {0}: {1}")]
    Read(Source<'a>, Cause),
    /// The fault of the script, and what is told of it.
    #[error("{1}")]
    Script(ScriptFault, String),
    #[error("script line {}: {}{}", .0.number, changed_text(.0.answer), advice_on(.0.answer))]
    Refused(RefusedLine),
    #[error("bind {0}: {1}")]
    Bind(Place<'a>, Cause),
    /// The history can't go on from the file at this path.
    #[error("journal {0}: {1}")]
    Journal(&'a str, JournalCause),
    /// The process may have no files open for connections.
    #[error("too few open files")]
    TooFewFiles,
    /// The descriptor that a supervisor handed over can't be listened at.
    #[error("LISTEN_FDS: descriptor {0} is no listening TCP socket")]
    HandedOver(u32),
    /// A loop has no way to wait for its sockets, say for want of descriptors.
    #[error("event loop: {0}")]
    EventLoop(Cause),
    /// The system made no thread for one of the places for sessions, or for the watchdog.
    #[error("too few threads")]
    TooFewThreads,
    #[error("write: {0}")]
    Write(Cause),
    #[error("out of memory")]
    OutOfMemory,
}

impl fmt::Debug for RunFailure<'_> {
    fn fmt<W: fmt::Write>(&self, f: &mut fmt::Formatter<W>) -> fmt::Result {
        fmt::Display::fmt(self, f)
    }
}

impl From<AllocError> for RunFailure<'_> {
    ghost from_gives = { λ _ failure. failure ≡ OutOfMemory };

    fn from(_error: AllocError) -> Self {
        RunFailure::OutOfMemory
    }
}

impl<T: Drop> From<AllocFailed<T>> for RunFailure<'_> {
    ghost from_gives = { λ _ failure. failure ≡ OutOfMemory };

    fn from(_error: AllocFailed<T>) -> Self {
        RunFailure::OutOfMemory
    }
}

/// What is said of a change beside its answer: which rules there are, where its own is none.
fn advice_on(answer: Result<Reply, Refusal>) -> &'static str {
    match answer {
        Err(Refusal::BadRule) => {
            ": a threshold has counts from 1 to 1000, and a service depends on services that stand \
                further left in the catalogue"
        }
        _ => "",
    }
}

/// The failure of a run whose history can't go on from the file at this path.
pub(crate) fn journal_failure<'a>(path: &'a str, fault: OpeningFault) -> RunFailure<'a> {
    match JournalCause::of(fault) {
        Some(cause) => RunFailure::Journal(path, cause),
        None => RunFailure::OutOfMemory,
    }
}

/// The failure of bytes that have this fault as a script to run.
pub fn script_failure<'a>(alloc: Global, bytes: &[u8], fault: ScriptFault) -> RunFailure<'a>
    ensures { IsScriptFailure bytes.now fault result }
{
    if fault == ScriptFault::NoMemory {
        return RunFailure::OutOfMemory;
    }
    match explain(alloc, bytes, fault) {
        Ok(text) => RunFailure::Script(fault, text),
        Err(_) => RunFailure::OutOfMemory,
    }
}

/// What an error of the system comes to: that memory ran out, or else what `tell` makes of its cause.
pub fn failure_by<'a, F: FnOnce(Cause) -> RunFailure<'a>>(
    error: io::Error,
    tell: F,
) -> RunFailure<'a>
    requires callable { F.IsAlwaysCallable tell }
    ensures memory { (error_kind error ≡ ErrorKind.OutOfMemory) → (result ≡ OutOfMemory) }
    ensures told { (error_kind error ≢ ErrorKind.OutOfMemory) → (cause : Cause) × F.post tell cause result }
{
    if error.kind() == ErrorKind::OutOfMemory {
        RunFailure::OutOfMemory
    } else {
        tell(Cause::from(error))
    }
}
