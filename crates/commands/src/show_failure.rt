ghost use Rattle.std.specs.Prelude.{◌≡◌};
ghost use Rattle.commands.specs.declared.show_failure.ShowFailure.TheVariants.{Told};
ghost use Rattle.commands.specs.declared.tell_failure.TellFailure.TheVariants.{OutOfMemory};

use crate::tell_failure::{Doubt, TellFailure};
use control::Place;
use safe_text::SafeText;
use std::alloc::{AllocError, AllocFailed};
use std::fmt;
use thiserror::Error;

/// What ends the commands `status` and `history` with status 1. Its text follows `healthd: ` on standard error.
#[derive(Drop, Error)]
pub enum ShowFailure<'a> {
    #[error("{0}")]
    Told(TellFailure<'a>),
    /// The time for an answer was up. Nothing that was asked changes anything.
    #[error("timed out{}", Doubt(*.0))]
    TimedOut(Place<'a>),
    /// The server ended the session before it answered.
    #[error("no answer")]
    Ended,
    /// The answer is none to what was asked.
    #[error("{} answered {}", .0, SafeText(.1.as_str()))]
    Answered(Place<'a>, String),
    /// The answer is not UTF-8.
    #[error("{0} answered no text")]
    NoText(Place<'a>),
}

impl fmt::Debug for ShowFailure<'_> {
    fn fmt<W: fmt::Write>(&self, f: &mut fmt::Formatter<W>) -> fmt::Result {
        fmt::Display::fmt(self, f)
    }
}

impl<'a> From<TellFailure<'a>> for ShowFailure<'a> {
    fn from(failure: TellFailure<'a>) -> Self {
        match failure {
            TellFailure::TimedOut(place) => ShowFailure::TimedOut(place),
            TellFailure::NoAnswer => ShowFailure::Ended,
            other => ShowFailure::Told(other),
        }
    }
}

impl From<AllocError> for ShowFailure<'_> {
    ghost from_gives = { λ _ failure. failure ≡ Told OutOfMemory };

    fn from(_error: AllocError) -> Self {
        ShowFailure::Told(TellFailure::OutOfMemory)
    }
}

impl<T: Drop> From<AllocFailed<T>> for ShowFailure<'_> {
    ghost from_gives = { λ _ failure. failure ≡ Told OutOfMemory };

    fn from(_error: AllocFailed<T>) -> Self {
        ShowFailure::Told(TellFailure::OutOfMemory)
    }
}
