use crate::safe_lines::SafeLines;
use control::Cause;
use journal_lines::{PrintingFault, print_journal};
use std::io::BufWriter;
use std::rt::Files;
use std::{fmt, io};
use thiserror::Error;

/// What ends the command `journal` with status 1. Its text follows `healthd: ` on standard error.
#[derive(Clone, Copy, Error)]
pub enum JournalFailure<'a> {
    #[error("journal {0}: not a file")]
    NotAFile(&'a str),
    /// What begins at this byte of the file is nothing that a server writes, and no crash leaves it.
    #[error("journal {0}: damaged at byte {1}")]
    Damaged(&'a str, usize),
    #[error("journal {0}: {1}")]
    Read(&'a str, Cause),
    #[error("write: {0}")]
    Write(Cause),
    #[error("out of memory")]
    OutOfMemory,
}

impl fmt::Debug for JournalFailure<'_> {
    fn fmt<W: fmt::Write>(&self, f: &mut fmt::Formatter<W>) -> fmt::Result {
        fmt::Display::fmt(self, f)
    }
}

impl<'a> JournalFailure<'a> {
    /// The failure of printing the journal in the file at a path.
    pub fn at(path: &'a str, fault: PrintingFault) -> JournalFailure<'a> {
        match fault {
            PrintingFault::NotAFile => JournalFailure::NotAFile(path),
            PrintingFault::Damaged(at) => JournalFailure::Damaged(path, at),
            PrintingFault::Read(error) => JournalFailure::Read(path, Cause::from(error)),
            PrintingFault::Write(error) => JournalFailure::Write(Cause::from(error)),
            PrintingFault::Memory => JournalFailure::OutOfMemory,
        }
    }
}

/// The command `journal`.
pub fn run_journal<'a, R: Print + Files + AllocGlobal>(
    rt: &R,
    path: &'a str,
    is_json: bool,
) -> Result<(), JournalFailure<'a>> {
    let alloc = rt.alloc();
    let Ok(output) = BufWriter::new(alloc, io::writer(rt)) else {
        return Err(JournalFailure::OutOfMemory);
    };
    let mut output = SafeLines::new(alloc, output);
    match print_journal(rt, alloc, path, is_json, &mut output) {
        Ok(()) => Ok(()),
        Err(fault) => Err(JournalFailure::at(path, fault)),
    }
}
