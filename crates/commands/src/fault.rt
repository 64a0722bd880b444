ghost use Rattle.std.specs.Prelude.{◌≡◌};
ghost use Rattle.commands.specs.declared.fault.Fault.TheVariants.{OutOfMemory, Script, Ask};
ghost use Rattle.commands.specs.Fault.{fault_of};

use client::AskFault;
use crew::CrewWhy;
use script::ScriptFault;
use server::ServeFault;
use std::alloc::{AllocError, AllocFailed};
use std::fmt;
use thiserror::Error;

/// What ends a command with status 1. Its text follows `healthd: ` on standard error.
#[derive(Clone, Copy, PartialEq, Eq, Error)]
pub enum Fault {
    BadHex,
    BadService,
    Script(ScriptFault),
    Read,
    Write,
    /// The port can't be listened to, say because another program does.
    Bind,
    Crew(CrewWhy),
    /// Seats of the hall didn't come back.
    SeatsMissing,
    NameTooLong,
    /// No program listens to the port.
    Connect,
    /// The time that a call may take is up.
    TimedOut,
    Ask(AskFault),
    OutOfMemory,
}

impl fmt::Display for Fault {
    fn fmt<W: fmt::Write>(&self, f: &mut fmt::Formatter<W>) -> fmt::Result {
        let text = match *self {
            Fault::BadHex => "bad hex",
            Fault::BadService => "bad service",
            Fault::Script(fault) => return write!(f, "{fault}"),
            Fault::Read => "read",
            Fault::Write => "write",
            Fault::Bind => "bind",
            Fault::Crew(why) => return write!(f, "crew fault {}", why.number()),
            Fault::SeatsMissing => "seats missing",
            Fault::NameTooLong => "name too long",
            Fault::Connect => "connect",
            Fault::TimedOut => "timed out",
            Fault::Ask(fault) => return write!(f, "{fault}"),
            Fault::OutOfMemory => "out of memory",
        };
        f.write_str(text)
    }
}

impl fmt::Debug for Fault {
    fn fmt<W: fmt::Write>(&self, f: &mut fmt::Formatter<W>) -> fmt::Result {
        fmt::Display::fmt(self, f)
    }
}

impl From<AllocError> for Fault {
    ghost from_gives = { λ _ fault. fault ≡ OutOfMemory };

    fn from(_error: AllocError) -> Fault {
        Fault::OutOfMemory
    }
}

impl<T: Drop> From<AllocFailed<T>> for Fault {
    ghost from_gives = { λ _ fault. fault ≡ OutOfMemory };

    fn from(_error: AllocFailed<T>) -> Fault {
        Fault::OutOfMemory
    }
}

impl From<ScriptFault> for Fault {
    ghost from_gives = { λ script fault. fault ≡ Script script };

    fn from(fault: ScriptFault) -> Fault {
        Fault::Script(fault)
    }
}

impl From<AskFault> for Fault {
    ghost from_gives = { λ asked fault. fault ≡ Ask asked };

    fn from(fault: AskFault) -> Fault {
        Fault::Ask(fault)
    }
}

impl From<ServeFault> for Fault {
    ghost from_gives = { λ served fault. fault ≡ fault_of served };

    fn from(fault: ServeFault) -> Fault {
        match fault {
            ServeFault::Crew(why) => Fault::Crew(why),
            ServeFault::SeatsMissing => Fault::SeatsMissing,
            ServeFault::NoMemory => Fault::OutOfMemory,
        }
    }
}
