ghost use Rattle.std.specs.Prelude.{◌≡◌, ◌≢◌, ℕ};
ghost use Rattle.journal_lines.specs.declared.printing_fault.PrintingFault.TheVariants.{Damaged, Memory};

use std::alloc::{AllocError, AllocFailed};
use std::io::ErrorKind;
use std::{fmt, io};

/// Why the entries of a journal's file are not printed.
#[derive(Clone, Copy, Drop)]
pub enum PrintingFault {
    /// There is no plain file.
    NotAFile,
    /// What begins at this byte of the file is nothing that a server writes, and no crash leaves it.
    Damaged(usize),
    /// The system does not let the file be read.
    Read(io::Error),
    /// It does not take what is printed.
    Write(io::Error),
    Memory,
}

impl PrintingFault {
    /// What an error of reading the file comes to.
    pub(crate) fn of_reading(error: io::Error) -> PrintingFault {
        match error.kind() {
            ErrorKind::OutOfMemory => PrintingFault::Memory,
            _ => PrintingFault::Read(error),
        }
    }

    /// What an error of printing comes to.
    pub(crate) fn of_writing(error: io::Error) -> PrintingFault
        ensures { (at : ℕ) → result ≢ Damaged at }
    {
        match error.kind() {
            ErrorKind::OutOfMemory => PrintingFault::Memory,
            _ => PrintingFault::Write(error),
        }
    }
}

impl From<AllocError> for PrintingFault {
    ghost from_gives = { λ _ fault. fault ≡ Memory };

    fn from(_: AllocError) -> Self {
        PrintingFault::Memory
    }
}

impl<T: Drop> From<AllocFailed<T>> for PrintingFault {
    ghost from_gives = { λ _ fault. fault ≡ Memory };

    fn from(_: AllocFailed<T>) -> Self {
        PrintingFault::Memory
    }
}

impl fmt::Display for PrintingFault {
    fn fmt<W: fmt::Write>(&self, f: &mut fmt::Formatter<W>) -> fmt::Result {
        match self {
            PrintingFault::NotAFile => f.write_str("not a file"),
            PrintingFault::Damaged(at) => write!(f, "damaged at byte {at}"),
            PrintingFault::Read(error) => write!(f, "{error}"),
            PrintingFault::Write(error) => write!(f, "write: {error}"),
            PrintingFault::Memory => f.write_str("out of memory"),
        }
    }
}
