use std::fs;
use std::fs::File;
use std::rt::Files;

/// The file at a path, which is removed again when this is dropped, if it was missing before and is not kept.
pub(crate) struct NewFile<'a, R: Files<File = File>> {
    rt: &'a R,
    path: String,
    is_kept: bool,
}

impl<'a, R: Files<File = File>> NewFile<'a, R> {
    pub(crate) fn new(rt: &'a R, path: String, was_missing: bool) -> NewFile<'a, R> {
        NewFile {
            rt,
            path,
            is_kept: !was_missing,
        }
    }

    /// It stays, whatever comes.
    pub(crate) fn keep(&mut self) {
        self.is_kept = true;
    }
}

impl<R: Files<File = File>> Drop for NewFile<'_, R> {
    fn drop(self) {
        let NewFile { rt, path, is_kept } = self;
        if !is_kept {
            let _ = fs::remove_file(rt, path.as_str());
        }
    }
}
