//! No contract can see what a file has. What a run promises of a crash supposes that a file which is opened anew has what a crash of the
//! device before might have left, or where it was being written anew, the old text or the new; what was acknowledged is compared with it.

use crate::journal_store::JournalStore;
use crate::medium::Medium;
use chronicle::StoreFault;
use record_log::{FileDevice, FileError, HeldFile, RecordLog, write_text_anew};
use std::fs::File;
use std::io;
use std::rt::Files;

/// A file at a path.
#[derive(Drop)]
pub struct FileMedium<'a, R: Files<File = File> + AllocGlobal> {
    rt: &'a R,
    path: String,
    // One of these may be the file at the path, until that was opened anew.
    old: Option<HeldFile>,
    new: Option<HeldFile>,
}

/// A journal in a file at a path.
pub type FileStore<'a, R, W> = JournalStore<FileMedium<'a, R>, W>;

impl<'a, R: Files<File = File> + AllocGlobal> FileMedium<'a, R> {
    pub fn new(rt: &'a R, path: String) -> FileMedium<'a, R> {
        FileMedium {
            rt,
            path,
            old: None,
            new: None,
        }
    }

    /// Opens the file at the path, under the lock that is held where it is one of those that are. None is made.
    fn open(&self) -> Result<FileDevice, FileError> {
        for held in [self.old.as_ref(), self.new.as_ref()].into_iter().flatten() {
            if held.is_at(self.rt, &self.path) {
                return held.open(self.rt, &self.path);
            }
        }
        FileDevice::open_existing(self.rt, &self.path)
    }
}

/// What is told of an error of a file. The journal's own is in use by nobody else.
fn fault_of_file(error: FileError) -> StoreFault {
    match error {
        FileError::Memory => StoreFault::Unknown,
        FileError::Io(error) if error.kind() == io::ErrorKind::NotFound => StoreFault::Moved,
        FileError::Io(error) => fault_of_system(error),
        FileError::InUse | FileError::NotAFile => StoreFault::Moved,
    }
}

fn fault_of_system(error: io::Error) -> StoreFault {
    match error.raw_os_error() {
        Some(number) => StoreFault::System(number.unsigned_abs()),
        None => StoreFault::Unknown,
    }
}

impl<'a, R: Files<File = File> + AllocGlobal> Medium for FileMedium<'a, R> {
    ghost use Rattle.std.specs.Prelude.{◌≡◌, ◌++◌, ◌∷◌, [], ℕ, List, IfOk};
    ghost use Rattle.record_log.specs.FileView.{IsReadyFile};
    ghost use Rattle.record_log.specs.Log.{blocks};

    type Device = FileDevice;

    fn fault(&self, device: &FileDevice) -> Option<StoreFault> {
        device.error().map(fault_of_system)
    }

    fn is_in_place(&self, device: &FileDevice) -> bool {
        device.is_at(self.rt, &self.path)
    }

    fn hold(&mut self, device: FileDevice) {
        self.old = Some(device.into_held());
    }

    fn reopen(&mut self) -> Result<FileDevice, StoreFault> {
        self.open().map_err(fault_of_file)
    }

    fn release(&mut self) {
        self.old = None;
        self.new = None;
    }

    fn replace(
        &mut self,
        old: RecordLog<FileDevice>,
        file: &[u8],
    ) -> Result<RecordLog<FileDevice>, StoreFault>
        requires whole { (records : List (List ℕ)) × (file.now ≡ blocks records ++ 0 ∷ []) }
        ensures ready { (records : List (List ℕ)) → file.now ≡ blocks records ++ 0 ∷ []
            → IfOk result (λ log. IsReadyFile log records) }
    {
        match write_text_anew(self.rt, &self.path, old, file) {
            Ok(log) => Ok(log),
            Err(failed) => {
                self.old = Some(failed.old);
                self.new = failed.new;
                Err(fault_of_file(failed.error))
            }
        }
    }
}
