use std::error::Error;
use std::fmt;

/// Why there is no hall, in the order in which it is tested.
#[derive(Clone, Copy, Debug, PartialEq, Eq)]
pub enum HallFault {
    NoSeats = 1,
    /// More than 1,024 seats.
    TooManySeats = 2,
    NoMemory = 3,
}

impl HallFault {
    ghost use Rattle.std.specs.Prelude.{◌≡◌};
    ghost use Rattle.hall.specs.Fault.{hall_fault};

    pub(crate) fn of(seats: u16) -> Option<HallFault>
        ensures { result ≡ hall_fault seats }
    {
        if seats == 0 {
            Some(HallFault::NoSeats)
        } else if seats > MAX_SEATS {
            Some(HallFault::TooManySeats)
        } else {
            None
        }
    }
}

/// The most seats of a hall.
const MAX_SEATS: u16 = 1_024;

impl fmt::Display for HallFault {
    ghost use Rattle.std.specs.Prelude.{Some};
    ghost use Rattle.hall.specs.Fault.{hall_fault_text};

    ghost output = { λ fault. Some (hall_fault_text fault) };

    fn fmt<W: fmt::Write>(&self, f: &mut fmt::Formatter<W>) -> fmt::Result {
        f.write_str(match self {
            HallFault::NoSeats => "a hall needs a seat",
            HallFault::TooManySeats => "a hall has at most 1024 seats",
            HallFault::NoMemory => "out of memory",
        })
    }
}

impl Error for HallFault {}
