use control::Cause;
use durable::OpeningFault;
use std::fmt;
use std::io::ErrorKind;
use thiserror::Error;

/// Why a run can't go on from the history in a file.
#[derive(Clone, Copy, Error)]
pub enum JournalCause {
    /// Another process has the file.
    #[error("in use")]
    InUse,
    #[error("not a file")]
    NotAFile,
    /// The file is of other services than the script's, or of the same in another order.
    #[error("another catalogue")]
    AnotherCatalogue,
    /// No crash leaves what is in the file from this byte on.
    #[error("damaged at byte {0}")]
    Damaged(usize),
    #[error("too many entries")]
    TooLong,
    #[error("not stored")]
    NotStored,
    #[error("{0}")]
    System(Cause),
}

impl fmt::Debug for JournalCause {
    fn fmt<W: fmt::Write>(&self, f: &mut fmt::Formatter<W>) -> fmt::Result {
        fmt::Display::fmt(self, f)
    }
}

impl JournalCause {
    /// The cause of a fault; none where memory ran out.
    pub(crate) fn of(fault: OpeningFault) -> Option<JournalCause> {
        Some(match fault {
            OpeningFault::Memory => return None,
            OpeningFault::System(error) if error.kind() == ErrorKind::OutOfMemory => return None,
            OpeningFault::System(error) => JournalCause::System(Cause::from(error)),
            OpeningFault::InUse => JournalCause::InUse,
            OpeningFault::NotAFile => JournalCause::NotAFile,
            OpeningFault::AnotherCatalogue => JournalCause::AnotherCatalogue,
            OpeningFault::Damaged(at) => JournalCause::Damaged(at),
            OpeningFault::TooLong => JournalCause::TooLong,
            OpeningFault::NotStored => JournalCause::NotStored,
        })
    }
}
