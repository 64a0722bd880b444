use std::error::Error;
use std::fmt;

/// Why a connection was not taken in. It leaves the table as it was.
#[derive(Clone, Copy, Debug, PartialEq, Eq)]
pub enum Refused {
    /// As many connections are held as may be.
    Full = 1,
    /// Memory ran out.
    NoMemory = 2,
}

impl fmt::Display for Refused {
    ghost use Rattle.std.specs.Prelude.{Some};
    ghost use Rattle.reactor.specs.Refused.{refused_text};

    ghost output = { λ refused. Some (refused_text refused) };

    fn fmt<W: fmt::Write>(&self, f: &mut fmt::Formatter<W>) -> fmt::Result {
        f.write_str(match self {
            Refused::Full => "the table is full",
            Refused::NoMemory => "out of memory",
        })
    }
}

impl Error for Refused {}

/// A connection that was not taken in, and why.
#[derive(Drop)]
pub struct NotTaken<C> {
    pub refused: Refused,
    pub connection: C,
}
