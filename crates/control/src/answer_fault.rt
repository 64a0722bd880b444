ghost use Rattle.std.specs.Prelude.{◌≡◌};
ghost use Rattle.control.specs.declared.answer_fault.AnswerFault.TheVariants.{OutOfMemory};

use std::alloc::{AllocError, AllocFailed};
use std::{fmt, io};
use thiserror::Error;

/// Why a line has no answer.
#[derive(Clone, Copy, Error)]
pub enum AnswerFault {
    /// A write or a flush returned this error, or a write took no byte.
    #[error("write: {0}")]
    Write(io::Error),
    /// A read returned this error.
    #[error("read: {0}")]
    Read(io::Error),
    /// The input ended before the line feed of an answer.
    #[error("no answer")]
    NoAnswer,
    /// The answer has more bytes than are read of a line.
    #[error("answer too long")]
    TooLong,
    #[error("out of memory")]
    OutOfMemory,
}

impl fmt::Debug for AnswerFault {
    fn fmt<W: fmt::Write>(&self, f: &mut fmt::Formatter<W>) -> fmt::Result {
        fmt::Display::fmt(self, f)
    }
}

impl From<AllocError> for AnswerFault {
    ghost from_gives = { λ _ fault. fault ≡ OutOfMemory };

    fn from(_error: AllocError) -> AnswerFault {
        AnswerFault::OutOfMemory
    }
}

impl<T: Drop> From<AllocFailed<T>> for AnswerFault {
    ghost from_gives = { λ _ fault. fault ≡ OutOfMemory };

    fn from(_error: AllocFailed<T>) -> AnswerFault {
        AnswerFault::OutOfMemory
    }
}
