//! A real file as a device: each call is made, and then noted.
//!
//! No contract can see what a file has. The log's promises suppose of one that is locked:
//! * it is as `Noted.after` says after each call that was made, and nobody else writes to it;
//! * a crash, or a process that ends, leaves what `MayLeave` says of that;
//! * a rename leaves the one file or the other in its place, and a sync of its folder the new one.

ghost use Rattle.std.specs.Prelude.{◌≡◌, ◌<◌, ◌^◌, length, IfOk};
ghost use Rattle.std.specs.Option.{ForSome};
ghost use Rattle.record_log.specs.Crashes.{contents_of, MayLeave, LeftSince, counts_now, only_now};

use crate::device::failed;
use crate::past::Past;
use crate::{Device, DeviceError, FileError, HeldFile};
use std::alloc::Global;
use std::fs::{File, OpenOptions, TryLockError};
use std::io::{Read, Seek, SeekFrom};
use std::os::fd::AsRawFd;
use std::os::unix::fs::{FileExt, MetadataExt};
use std::rt::Files;
use std::{fs, io};

/// The largest length of a file.
const MAX_LEN: usize = (1 << 63) - 1;

/// A file under a lock. Once a call of it failed, all do: open it anew.
#[derive(Drop)]
pub struct FileDevice {
    file: File,
    opened: Option<Vec<u8>>,
    past: Past,
    failures: usize,
    /// The system's, of the call that failed.
    error: Option<io::Error>,
    ghost read: { ForSome opened (λ bytes. bytes.items ≡ contents_of past.states) },
    ghost bounded: { length (contents_of past.states) < 2 ^ 63 },
}

impl FileDevice {
    ghost use Rattle.record_log.specs.FileView.{file_bytes, file_may_leave};
    ghost use Rattle.record_log.specs.Device.{IsDurable};

    /// Opens a file, which is made if it is missing, and locks it until the result is dropped.
    pub fn open<R: Files<File = File> + AllocGlobal>(
        rt: &R,
        path: &str,
    ) -> Result<FileDevice, FileError>
        ensures { IfOk result (λ device. IsDurable (file_bytes device) (file_may_leave device)) }
    {
        let file = open_locked(rt, path, true)?;
        FileDevice::of_locked(rt, path, file)
    }

    /// The same of a file that is not made: it is an error if it is missing.
    pub fn open_existing<R: Files<File = File> + AllocGlobal>(
        rt: &R,
        path: &str,
    ) -> Result<FileDevice, FileError>
        ensures { IfOk result (λ device. IsDurable (file_bytes device) (file_may_leave device)) }
    {
        let file = open_locked(rt, path, false)?;
        FileDevice::of_locked(rt, path, file)
    }

    /// A file with these bytes, all of them on the disk.
    fn over(file: File, bytes: Vec<u8>) -> FileDevice
        ensures bytes { file_bytes result ≡ bytes.items }
        ensures durable { IsDurable (file_bytes result) (file_may_leave result) }
    {
        let past = Past::of(&bytes);
        FileDevice {
            file,
            opened: Some(bytes),
            past,
            failures: 0,
            error: None,
        }
    }

    /// A file of this text, all of it on the disk, which is not to be read.
    pub(crate) fn written(file: File, text: &[u8]) -> FileDevice
        ensures bytes { file_bytes result ≡ text.now }
        ensures durable { IsDurable (file_bytes result) (file_may_leave result) }
    {
        FileDevice {
            file,
            opened: None,
            past: Past::of(text),
            failures: 0,
            error: None,
        }
    }

    /// The error of the system's call that failed, if one did.
    pub fn error(&self) -> Option<io::Error> {
        self.error
    }

    /// Whether its file is the one that stands at this path.
    pub fn is_at<R: Files<File = File>>(&self, rt: &R, path: &str) -> bool {
        is_named(rt, &self.file, path).unwrap_or(false)
    }

    /// The file alone, which stays locked.
    pub fn into_held(self) -> HeldFile {
        HeldFile { file: self.file }
    }

    /// A device over a locked file at this path: all that it has is on the disk before it is read.
    pub(crate) fn of_locked<R: Files<File = File> + AllocGlobal>(
        rt: &R,
        path: &str,
        file: File,
    ) -> Result<FileDevice, FileError>
        ensures { IfOk result (λ device. IsDurable (file_bytes device) (file_may_leave device)) }
    {
        let mut file = file;
        file.sync_all()?;
        sync_folder(rt, path)?;
        forget(&file)?;
        file.seek(SeekFrom::Start(0))?;
        let mut bytes = Vec::new(rt.alloc());
        file.read_to_end(&mut bytes)?;
        Ok(FileDevice::over(file, bytes))
    }
}

/// Opens the file at a path, which may have to be made, and locks it.
fn open_locked<R: Files<File = File>>(rt: &R, path: &str, makes: bool) -> Result<File, FileError> {
    match fs::metadata(rt, path) {
        Ok(found) if !found.is_file() => return Err(FileError::NotAFile),
        Err(error) if error.kind() != io::ErrorKind::NotFound => return Err(error.into()),
        _ => {}
    }
    let file = OpenOptions::new()
        .read(true)
        .write(true)
        .create(makes)
        .open(rt, path)?;
    lock(rt, &file, path)?;
    Ok(file)
}

/// Locks the file that stands at this path.
pub(crate) fn lock<R: Files<File = File>>(
    rt: &R,
    file: &File,
    path: &str,
) -> Result<(), FileError> {
    match file.try_lock() {
        Ok(()) => {}
        Err(TryLockError::WouldBlock) => return Err(FileError::InUse),
        Err(TryLockError::Error(error)) => return Err(FileError::Io(error)),
    }
    // Before the lock was held, another file may have been put in its place.
    if is_named(rt, file, path)? {
        Ok(())
    } else {
        Err(FileError::InUse)
    }
}

/// Whether a file is the one that stands at this path.
pub(crate) fn is_named<R: Files<File = File>>(rt: &R, file: &File, path: &str) -> io::Result<bool> {
    let (found, named) = (file.metadata()?, fs::metadata(rt, path)?);
    Ok(found.dev() == named.dev() && found.ino() == named.ino())
}

/// Syncs the folder of a path, so that the file's name is on the disk.
pub(crate) fn sync_folder<R: Files<File = File>>(rt: &R, path: &str) -> io::Result<()> {
    let folder = match path.rsplit_once('/') {
        Some((folder, _)) if !folder.is_empty() => folder,
        Some(_) => "/",
        None => ".",
    };
    File::open(rt, folder)?.sync_all()
}

/// Has the kernel drop its copy of a file: after a sync that failed, it may not be what the disk
/// has.
fn forget(file: &File) -> io::Result<()> {
    match libc::posix_fadvise(file.as_raw_fd(), 0, 0, libc::POSIX_FADV_DONTNEED) {
        0 => Ok(()),
        error => Err(io::Error::from_raw_os_error(error)),
    }
}

impl Device for FileDevice {
    ghost contents = { λ f. contents_of f.past.states };

    ghost may_leave = { λ f. MayLeave f.past.states };

    ghost moment = { λ f. length f.past.states };

    ghost left_since = { λ f. LeftSince f.past.states };

    ghost failures = { λ f. f.failures };

    ghost bounded = { λ f. f.bounded };

    ghost counts_now = { λ f. counts_now f.past.states };

    ghost only_now = { λ f. only_now f.past.states };

    /// Once, before the first write.
    fn read(&mut self, _alloc: Global) -> Result<Vec<u8>, DeviceError> {
        match self.opened.take() {
            Some(bytes) => Ok(bytes),
            None => Err(failed(&mut self.failures)),
        }
    }

    fn write_at(&mut self, at: usize, bytes: &[u8]) -> Result<(), DeviceError> {
        if self.failures > 0 || bytes.len() > MAX_LEN - at {
            return Err(failed(&mut self.failures));
        }
        self.opened = None;
        let written = self.file.write_all_at(bytes, at as u64);
        self.past.note(&[at as u64], bytes);
        match written {
            Ok(()) => Ok(()),
            Err(error) => {
                self.error = Some(error);
                Err(failed(&mut self.failures))
            }
        }
    }

    fn sync(&mut self) -> Result<(), DeviceError> {
        if self.failures > 0 {
            return Err(failed(&mut self.failures));
        }
        if let Err(error) = self.file.sync_data() {
            self.error = Some(error);
            return Err(failed(&mut self.failures));
        }
        self.past.note(&[], &[]);
        Ok(())
    }
}
