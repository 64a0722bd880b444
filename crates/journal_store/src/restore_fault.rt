use std::alloc::AllocError;
use std::fmt;

/// Why a registry was not restored.
#[derive(Clone, Copy, Debug, Drop)]
pub enum RestoreFault {
    Memory,
    /// There are more entries than a registry may have.
    TooLong,
    /// The entry of this number, counted from 0, is none that a registry makes behind those before it.
    Illegal(usize),
}

impl From<AllocError> for RestoreFault {
    ghost use Rattle.std.specs.Prelude.{◌≡◌};
    ghost use Rattle.journal_store.specs.declared.restore_fault.RestoreFault.TheVariants.{Memory};

    ghost from_gives = { λ _ e. e ≡ Memory };

    fn from(_: AllocError) -> Self {
        RestoreFault::Memory
    }
}

impl fmt::Display for RestoreFault {
    fn fmt<W: fmt::Write>(&self, f: &mut fmt::Formatter<W>) -> fmt::Result {
        match self {
            RestoreFault::Memory => f.write_str("out of memory"),
            RestoreFault::TooLong => f.write_str("too many entries"),
            RestoreFault::Illegal(number) => write!(f, "entry {number} is not legal"),
        }
    }
}
