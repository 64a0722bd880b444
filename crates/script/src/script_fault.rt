ghost use Rattle.std.specs.Prelude.{◌≡◌};
ghost use Rattle.script.specs.declared.script_fault.ScriptFault.TheVariants.{NoMemory};

use desk_core::CatalogueFault;
use std::alloc::{AllocError, AllocFailed};
use std::fmt;
use thiserror::Error;

/// Why bytes are no script. Its text is one line, which a program may put its name before.
#[derive(Clone, Copy, PartialEq, Eq, Error)]
pub enum ScriptFault {
    #[error("script too long")]
    TooLong,
    #[error("script not text")]
    NotText,
    /// The number of the line, which counts from 1.
    #[error("script line {0}")]
    BadLine(u32),
    #[error("catalogue fault {}", .0.number())]
    Catalogue(CatalogueFault),
    #[error("out of memory")]
    NoMemory,
}

impl fmt::Debug for ScriptFault {
    fn fmt<W: fmt::Write>(&self, f: &mut fmt::Formatter<W>) -> fmt::Result {
        fmt::Display::fmt(self, f)
    }
}

impl From<AllocError> for ScriptFault {
    ghost from_gives = { λ _ fault. fault ≡ NoMemory };

    fn from(_error: AllocError) -> ScriptFault {
        ScriptFault::NoMemory
    }
}

impl<T: Drop> From<AllocFailed<T>> for ScriptFault {
    ghost from_gives = { λ _ fault. fault ≡ NoMemory };

    fn from(_error: AllocFailed<T>) -> ScriptFault {
        ScriptFault::NoMemory
    }
}
