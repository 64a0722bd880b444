use std::alloc::AllocError;
use std::{fmt, io};

#[derive(Clone, Copy, Debug)]
pub enum FileError {
    Memory,
    Io(io::Error),
    /// Another process or handle holds the lock, or has put another file in its place.
    InUse,
    NotAFile,
}

impl From<AllocError> for FileError {
    fn from(_: AllocError) -> Self {
        FileError::Memory
    }
}

impl From<io::Error> for FileError {
    fn from(error: io::Error) -> Self {
        FileError::Io(error)
    }
}

impl fmt::Display for FileError {
    fn fmt<W: fmt::Write>(&self, f: &mut fmt::Formatter<W>) -> fmt::Result {
        match self {
            FileError::Memory => f.write_str("out of memory"),
            FileError::Io(error) => write!(f, "{error}"),
            FileError::InUse => f.write_str("in use"),
            FileError::NotAFile => f.write_str("not a file"),
        }
    }
}
