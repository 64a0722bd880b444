ghost use Rattle.std.specs.Prelude.{◌≡◌};
ghost use Rattle.client.specs.declared.ask_fault.AskFault.TheVariants.{NoMemory};

use std::alloc::{AllocError, AllocFailed};
use std::fmt;
use thiserror::Error;

/// Why a client was told nothing. Its text is one line, which a program may put its name before.
#[derive(Clone, Copy, PartialEq, Eq, Error)]
pub enum AskFault {
    /// A read returned an error, or the input ended before the response told what was asked.
    #[error("read")]
    Read,
    /// A write or a flush returned an error, or a write took no byte.
    #[error("write")]
    Write,
    /// What was read is no response to a call of gRPC-Web.
    #[error("bad response")]
    BadResponse,
    /// The response has this status code of HTTP, and not 200.
    #[error("http {0}")]
    Http(u16),
    /// An allocation failed, for the request or for what is kept of the response.
    #[error("out of memory")]
    NoMemory,
}

impl fmt::Debug for AskFault {
    fn fmt<W: fmt::Write>(&self, f: &mut fmt::Formatter<W>) -> fmt::Result {
        fmt::Display::fmt(self, f)
    }
}

impl From<AllocError> for AskFault {
    ghost from_gives = { λ _ fault. fault ≡ NoMemory };

    fn from(_error: AllocError) -> AskFault {
        AskFault::NoMemory
    }
}

impl<T: Drop> From<AllocFailed<T>> for AskFault {
    ghost from_gives = { λ _ fault. fault ≡ NoMemory };

    fn from(_error: AllocFailed<T>) -> AskFault {
        AskFault::NoMemory
    }
}
