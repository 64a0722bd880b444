use std::alloc::{AllocError, AllocFailed};
use std::fmt;

/// Why the records of a file do not begin with a preface.
#[derive(Clone, Copy, Debug, PartialEq, Eq, Drop)]
pub enum PrefaceFault {
    Memory,
    /// The first record is no preface's.
    NoPreface,
    /// There are fewer names than the first record says.
    CutShort,
    /// A name has more bytes than a record.
    TooLong,
}

impl From<AllocError> for PrefaceFault {
    ghost use Rattle.std.specs.Prelude.{◌≡◌};
    ghost use Rattle.journal_store.specs.declared.preface_fault.PrefaceFault.TheVariants.{Memory};

    ghost from_gives = { λ _ e. e ≡ Memory };

    fn from(_: AllocError) -> Self {
        PrefaceFault::Memory
    }
}

impl<T: Drop> From<AllocFailed<T>> for PrefaceFault {
    ghost use Rattle.std.specs.Prelude.{◌≡◌};
    ghost use Rattle.journal_store.specs.declared.preface_fault.PrefaceFault.TheVariants.{Memory};

    ghost from_gives = { λ _ e. e ≡ Memory };

    fn from(_: AllocFailed<T>) -> Self {
        PrefaceFault::Memory
    }
}

impl fmt::Display for PrefaceFault {
    fn fmt<W: fmt::Write>(&self, f: &mut fmt::Formatter<W>) -> fmt::Result {
        match self {
            PrefaceFault::Memory => f.write_str("out of memory"),
            PrefaceFault::NoPreface => f.write_str("no preface"),
            PrefaceFault::CutShort => f.write_str("the preface is cut short"),
            PrefaceFault::TooLong => f.write_str("a name is too long"),
        }
    }
}
