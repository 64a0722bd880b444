use std::error::Error;
use std::fmt;

/// Why a crew has no report.
#[derive(Clone, Copy, Debug, PartialEq, Eq)]
pub enum CrewWhy {
    /// There are no workers.
    NoWorkers = 1,
    /// There are fewer seats than workers and lists of orders.
    NoSeats = 2,
    /// A call was reported by a number that none of the calls has.
    Stranger = 3,
    /// A call was reported twice.
    Doubled = 4,
    /// A call was not reported, be it that memory ran out before a worker could take it.
    Lost = 5,
    /// Memory ran out, and nothing else is wrong.
    NoMemory = 6,
}

impl CrewWhy {
    ghost use Rattle.std.specs.Prelude.{◌≡◌, ◌+◌, ◌≤◌, IfNone};
    ghost use Rattle.crew.specs.CrewWhy.{crew_fault, why_number};

    /// The number that programs print.
    pub fn number(self) -> u8
        ensures { result ≡ why_number self }
    {
        self as u8
    }

    /// Why so many workers, lists of orders and seats make no crew; none where they make one.
    pub(crate) fn of(workers: u16, lists: usize, seats: usize) -> Option<CrewWhy>
        ensures value { result ≡ crew_fault workers lists seats }
        ensures enough { IfNone result (workers + lists ≤ seats) }
    {
        if workers == 0 {
            return Some(CrewWhy::NoWorkers);
        }
        match seats.checked_sub(workers as usize) {
            Some(left) if left >= lists => None,
            _ => Some(CrewWhy::NoSeats),
        }
    }
}

impl fmt::Display for CrewWhy {
    ghost use Rattle.std.specs.Prelude.{Some};
    ghost use Rattle.crew.specs.CrewWhy.{why_text};

    ghost output = { λ why. Some (why_text why) };

    fn fmt<W: fmt::Write>(&self, f: &mut fmt::Formatter<W>) -> fmt::Result {
        f.write_str(match self {
            CrewWhy::NoWorkers => "there are no workers",
            CrewWhy::NoSeats => "there are too few seats",
            CrewWhy::Stranger => "a report has the number of no call",
            CrewWhy::Doubled => "a call was reported twice",
            CrewWhy::Lost => "a call was not reported",
            CrewWhy::NoMemory => "out of memory",
        })
    }
}

impl Error for CrewWhy {}
