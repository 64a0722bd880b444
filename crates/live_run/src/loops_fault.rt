ghost use Rattle.std.specs.Prelude.{◌≡◌};

/// Why a hall was not run to its end.
#[derive(Clone, Copy, Debug, PartialEq, Eq)]
pub enum LoopsFault {
    /// There is no loop.
    NoLoops,
    /// There are fewer seats than loops and one more.
    NoSeats,
    /// Memory ran out, before anything was served.
    NoMemory,
    /// Seats of the hall were missing at the end.
    SeatsMissing,
}

impl LoopsFault {
    ghost use Rattle.std.specs.Prelude.{◌≡◌, ◌<◌, IfNone};
    ghost use Rattle.live_run.specs.WholeRun.{loops_fault};

    /// Why so many loops can't have seats of their own behind the first; none where they can.
    pub(crate) fn of(loops: usize, seats: usize) -> Option<LoopsFault>
        ensures value { result ≡ loops_fault loops seats }
        ensures enough { IfNone result (loops < seats) }
    {
        if loops == 0 {
            Some(LoopsFault::NoLoops)
        } else if seats <= loops {
            Some(LoopsFault::NoSeats)
        } else {
            None
        }
    }
}
