use crate::verdict::Verdict;
use std::alloc::AllocError;
use std::io::ErrorKind;
use std::{fmt, io};

/// How many reports were told, and the server did what they ask for, and how many were not.
#[derive(Clone, Copy)]
pub struct Telling {
    pub told: u64,
    pub untold: u64,
}

/// What came of one look at each target.
#[derive(Drop)]
pub struct Observed {
    /// In the order of the targets.
    pub verdicts: Vec<Verdict>,
    pub telling: Telling,
}

/// Why nothing can be observed.
#[derive(Clone, Copy)]
pub enum ObserveFault {
    /// There are 2^32 targets or more.
    Targets,
    OutOfMemory,
    /// The sink had enough before each look had ended.
    Unfinished,
    /// The system gives no poll or no clock.
    System(ErrorKind),
}

impl fmt::Display for ObserveFault {
    fn fmt<W: fmt::Write>(&self, f: &mut fmt::Formatter<W>) -> fmt::Result {
        match *self {
            ObserveFault::Targets => f.write_str("too many targets"),
            ObserveFault::OutOfMemory => f.write_str("out of memory"),
            ObserveFault::Unfinished => f.write_str("a look has not ended"),
            ObserveFault::System(kind) => write!(f, "{kind}"),
        }
    }
}

impl From<AllocError> for ObserveFault {
    fn from(_: AllocError) -> ObserveFault {
        ObserveFault::OutOfMemory
    }
}

impl From<io::Error> for ObserveFault {
    fn from(error: io::Error) -> ObserveFault {
        ObserveFault::System(error.kind())
    }
}
