use record_log::{FileError, OpenError};
use server::AgainFault;
use std::alloc::{AllocError, AllocFailed};
use std::io;

/// Why a run does not begin with the history in a file.
#[derive(Clone, Copy, Drop)]
pub enum OpeningFault {
    Memory,
    /// An error of the system.
    System(io::Error),
    /// Another process has the file.
    InUse,
    NotAFile,
    /// The file is of services with other names, or of the same in another order.
    AnotherCatalogue,
    /// No crash leaves what is in the file from this byte on.
    Damaged(usize),
    /// The file has more entries than a registry.
    TooLong,
    /// The entries of the setup were not stored.
    NotStored,
}

impl From<AllocError> for OpeningFault {
    fn from(_: AllocError) -> Self {
        OpeningFault::Memory
    }
}

impl<T: Drop> From<AllocFailed<T>> for OpeningFault {
    fn from(_: AllocFailed<T>) -> Self {
        OpeningFault::Memory
    }
}

impl From<io::Error> for OpeningFault {
    fn from(error: io::Error) -> Self {
        OpeningFault::System(error)
    }
}

impl From<FileError> for OpeningFault {
    fn from(error: FileError) -> Self {
        match error {
            FileError::Memory => OpeningFault::Memory,
            FileError::Io(error) => OpeningFault::System(error),
            FileError::InUse => OpeningFault::InUse,
            FileError::NotAFile => OpeningFault::NotAFile,
        }
    }
}

impl OpeningFault {
    /// The device could not store something, for this error of the system, if it is known.
    pub(crate) fn of_device(error: Option<io::Error>) -> OpeningFault {
        match error {
            Some(error) => OpeningFault::System(error),
            None => OpeningFault::NotStored,
        }
    }

    /// The file was not opened, for this error of the system, if it is known.
    pub(crate) fn of_opening(fault: OpenError, error: Option<io::Error>) -> OpeningFault {
        match fault {
            OpenError::Memory => OpeningFault::Memory,
            OpenError::Failed => OpeningFault::of_device(error),
            OpenError::Damaged(at) => OpeningFault::Damaged(at),
        }
    }
}
