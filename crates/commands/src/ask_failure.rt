ghost use Rattle.std.specs.Prelude.{◌≡◌};
ghost use Rattle.commands.specs.declared.ask_failure.AskFailure.TheVariants.{Plain};
ghost use Rattle.commands.specs.AskFailure.{plain_of};

use crate::fault::Fault;
use client::AskFault;
use control::Cause;
use std::fmt;
use std::net::SocketAddr;
use thiserror::Error;

/// What ends the command `ask` with status 1. Its text follows `healthd: ` on standard error.
#[derive(Clone, Copy, PartialEq, Eq, Error)]
pub enum AskFailure {
    #[error("{0}")]
    Plain(Fault),
    #[error("connect {0}: {1}")]
    Connect(SocketAddr, Cause),
    /// The time that the call may take is up: so many seconds.
    #[error("timed out after {0} s")]
    TimedOut(u64),
}

impl fmt::Debug for AskFailure {
    fn fmt<W: fmt::Write>(&self, f: &mut fmt::Formatter<W>) -> fmt::Result {
        fmt::Display::fmt(self, f)
    }
}

impl AskFailure {
    /// The same failure, told without a cause.
    pub fn plain(self) -> Fault
        ensures { result ≡ plain_of self }
    {
        match self {
            AskFailure::Plain(fault) => fault,
            AskFailure::Connect(..) => Fault::Connect,
            AskFailure::TimedOut(_) => Fault::TimedOut,
        }
    }
}

impl From<Fault> for AskFailure {
    ghost from_gives = { λ fault failure. failure ≡ Plain fault };

    fn from(fault: Fault) -> AskFailure {
        AskFailure::Plain(fault)
    }
}

impl From<AskFault> for AskFailure {
    fn from(fault: AskFault) -> AskFailure {
        AskFailure::Plain(Fault::Ask(fault))
    }
}
