ghost use Rattle.std.specs.Prelude.{◌≡◌};
ghost use Rattle.commands.specs.declared.tell_failure.TellFailure.TheVariants.{OutOfMemory};

use control::{AnswerFault, Cause, Place};
use std::alloc::{AllocError, AllocFailed};
use std::fmt;
use std::io::ErrorKind;
use thiserror::Error;

/// What ends the command `tell` with status 1. Its text follows `healthd: ` on standard error.
#[derive(Clone, Copy, Error)]
pub enum TellFailure<'a> {
    #[error("connect {0}: {1}")]
    Connect(Place<'a>, Cause),
    #[error("write {0}: {1}")]
    Send(Place<'a>, Cause),
    #[error("read {0}: {1}")]
    Receive(Place<'a>, Cause),
    /// The time for an answer was up.
    #[error("timed out, the change may still be made{}", Doubt(*.0))]
    TimedOut(Place<'a>),
    /// What listens there answered as a server of HTTP does.
    #[error("{0} answers HTTP, and is no control place")]
    Http(Place<'a>),
    /// The server ended the session before it answered.
    #[error("no answer")]
    NoAnswer,
    #[error("answer too long")]
    AnswerTooLong,
    /// The server has as many sessions as it may.
    #[error("too many sessions")]
    TurnedAway,
    #[error("read standard input: {0}")]
    Input(Cause),
    #[error("input line too long")]
    InputTooLong,
    #[error("write: {0}")]
    Write(Cause),
    #[error("out of memory")]
    OutOfMemory,
}

/// Why nothing may have answered at a place: a port for calls waits for a request.
#[derive(Clone, Copy)]
pub(crate) struct Doubt<'a>(pub(crate) Place<'a>);

impl fmt::Display for Doubt<'_> {
    fn fmt<W: fmt::Write>(&self, f: &mut fmt::Formatter<W>) -> fmt::Result {
        match self.0 {
            Place::Address(addr) => write!(
                f,
                "; is {addr} a port for calls, and no control place?"
            ),
            Place::Path(_) => Ok(()),
        }
    }
}

impl fmt::Debug for TellFailure<'_> {
    fn fmt<W: fmt::Write>(&self, f: &mut fmt::Formatter<W>) -> fmt::Result {
        fmt::Display::fmt(self, f)
    }
}

impl From<AllocError> for TellFailure<'_> {
    ghost from_gives = { λ _ failure. failure ≡ OutOfMemory };

    fn from(_error: AllocError) -> Self {
        TellFailure::OutOfMemory
    }
}

impl<T: Drop> From<AllocFailed<T>> for TellFailure<'_> {
    ghost from_gives = { λ _ failure. failure ≡ OutOfMemory };

    fn from(_error: AllocFailed<T>) -> Self {
        TellFailure::OutOfMemory
    }
}

/// The failure of a line that has no answer of the server there.
pub fn failure_at<'a>(place: Place<'a>, fault: AnswerFault) -> TellFailure<'a> {
    match fault {
        AnswerFault::Write(error) | AnswerFault::Read(error)
            if error.kind() == ErrorKind::TimedOut => { TellFailure::TimedOut(place) }
        AnswerFault::Write(error) => TellFailure::Send(place, Cause::from(error)),
        AnswerFault::Read(error) => TellFailure::Receive(place, Cause::from(error)),
        AnswerFault::NoAnswer => TellFailure::NoAnswer,
        AnswerFault::TooLong => TellFailure::AnswerTooLong,
        AnswerFault::OutOfMemory => TellFailure::OutOfMemory,
    }
}
