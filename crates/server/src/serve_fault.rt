ghost use Rattle.std.specs.Prelude.{◌≡◌};
ghost use Rattle.server.specs.CrewServer.{fault_of};

use crew::CrewWhy;

/// Why a server can't tell how its calls ended.
#[derive(Clone, Copy, Debug, PartialEq, Eq)]
pub enum ServeFault {
    /// The crew has no report, and not for lack of memory.
    Crew(CrewWhy),
    /// Seats of the hall are missing.
    SeatsMissing,
    /// Memory ran out, before the crew began or in it.
    NoMemory,
}

impl From<CrewWhy> for ServeFault {
    ghost from_gives = { λ why fault. fault ≡ fault_of why };

    fn from(why: CrewWhy) -> ServeFault {
        match why {
            CrewWhy::NoMemory => ServeFault::NoMemory,
            _ => ServeFault::Crew(why),
        }
    }
}
