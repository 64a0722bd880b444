use crate::FileError;
use crate::held_file::HeldFile;
use std::fmt;

/// Why a log's file was not written anew, and the files of which one is in its place.
#[derive(Debug, Drop)]
pub struct NotReplaced {
    pub error: FileError,
    pub old: HeldFile,
    /// The new one, once it may have the name.
    pub new: Option<HeldFile>,
}

impl fmt::Display for NotReplaced {
    fn fmt<W: fmt::Write>(&self, f: &mut fmt::Formatter<W>) -> fmt::Result {
        self.error.fmt(f)
    }
}
