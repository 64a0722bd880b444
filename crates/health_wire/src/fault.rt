ghost use Rattle.std.specs.Prelude.{Some};
ghost use Rattle.health_wire.specs.Fault.{text_of};

use std::alloc::{AllocError, AllocFailed};
use std::error::Error;
use std::fmt;

/// An allocation failed, and nothing else can have gone wrong.
pub type NoMemory = AllocError;

/// Why bytes hold no message. Faults are met from the left, and the first one counts.
#[derive(Clone, Copy, Debug, PartialEq, Eq)]
pub enum WireFault {
    /// The bytes end inside a varint, or before a value is whole.
    Truncated = 1,
    /// A field number is out of range, or a wire type is none of the four.
    BadTag = 2,
    /// A varint goes on past its tenth byte.
    BadVarint = 3,
    /// The service's name is no UTF-8. It comes after all faults of the wire, and from `read_request` alone.
    NotText = 4,
    /// An allocation failed. It comes from `fields` alone.
    NoMemory = 5,
}

impl WireFault {
    ghost use Rattle.std.specs.Prelude.{◌≡◌};
    ghost use Rattle.health_wire.specs.Fault.{fault_number};

    /// The number that a program may print.
    pub fn number(self) -> u8
        ensures { result ≡ fault_number self }
    {
        self as u8
    }
}

impl fmt::Display for WireFault {
    ghost output = { λ fault. Some (text_of fault) };

    fn fmt<W: fmt::Write>(&self, f: &mut fmt::Formatter<W>) -> fmt::Result {
        f.write_str(match self {
            WireFault::Truncated => "the message is cut short",
            WireFault::BadTag => "a field number or wire type is out of range",
            WireFault::BadVarint => "a varint is longer than ten bytes",
            WireFault::NotText => "the service name is not UTF-8",
            WireFault::NoMemory => "out of memory",
        })
    }
}

impl Error for WireFault {}

impl<T: Drop> From<AllocFailed<T>> for WireFault {
    ghost use Rattle.std.specs.Prelude.{◌≡◌};
    ghost use Rattle.health_wire.specs.declared.fault.WireFault.TheVariants.{NoMemory};

    ghost from_gives = { λ _ fault. fault ≡ NoMemory };

    fn from(_error: AllocFailed<T>) -> WireFault {
        WireFault::NoMemory
    }
}
