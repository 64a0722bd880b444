use crate::preface_fault::PrefaceFault;
use std::alloc::{AllocError, AllocFailed};
use std::fmt;

/// Why the records of a file are not entries.
#[derive(Clone, Copy, Debug, PartialEq, Eq, Drop)]
pub enum RecordFault {
    Memory,
    /// They do not begin with a preface.
    Preface(PrefaceFault),
    /// The record of this number, counted from 0, is no entry's.
    NotAnEntry(usize),
    /// There are fewer entries than stand for older ones by the preface.
    TooFew,
}

impl From<AllocError> for RecordFault {
    ghost use Rattle.std.specs.Prelude.{◌≡◌};
    ghost use Rattle.journal_store.specs.declared.record_fault.RecordFault.TheVariants.{Memory};

    ghost from_gives = { λ _ e. e ≡ Memory };

    fn from(_: AllocError) -> Self {
        RecordFault::Memory
    }
}

impl<T: Drop> From<AllocFailed<T>> for RecordFault {
    ghost use Rattle.std.specs.Prelude.{◌≡◌};
    ghost use Rattle.journal_store.specs.declared.record_fault.RecordFault.TheVariants.{Memory};

    ghost from_gives = { λ _ e. e ≡ Memory };

    fn from(_: AllocFailed<T>) -> Self {
        RecordFault::Memory
    }
}

impl From<PrefaceFault> for RecordFault {
    ghost use Rattle.std.specs.Prelude.{◌≡◌};
    ghost use Rattle.journal_store.specs.Fault.{of_preface};

    ghost from_gives = { λ fault e. e ≡ of_preface fault };

    fn from(fault: PrefaceFault) -> Self {
        match fault {
            PrefaceFault::Memory => RecordFault::Memory,
            PrefaceFault::NoPreface | PrefaceFault::CutShort | PrefaceFault::TooLong => {
                RecordFault::Preface(fault)
            }
        }
    }
}

impl fmt::Display for RecordFault {
    fn fmt<W: fmt::Write>(&self, f: &mut fmt::Formatter<W>) -> fmt::Result {
        match self {
            RecordFault::Memory => f.write_str("out of memory"),
            RecordFault::Preface(fault) => write!(f, "{fault}"),
            RecordFault::NotAnEntry(number) => write!(f, "record {number} is no entry"),
            RecordFault::TooFew => f.write_str("entries are missing"),
        }
    }
}
