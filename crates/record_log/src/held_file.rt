ghost use Rattle.std.specs.Prelude.{IfOk};
ghost use Rattle.record_log.specs.Device.{IsDurable};
ghost use Rattle.record_log.specs.FileView.{file_bytes, file_may_leave};

use crate::file_device::is_named;
use crate::{FileDevice, FileError};
use std::fs::File;
use std::rt::Files;

/// A file that is held on to: it stays locked until this is dropped, and whatever was opened of it.
#[derive(Debug, Drop)]
pub struct HeldFile {
    pub(crate) file: File,
}

impl HeldFile {
    /// Whether it is the file that stands at this path.
    pub fn is_at<R: Files<File = File>>(&self, rt: &R, path: &str) -> bool {
        is_named(rt, &self.file, path).unwrap_or(false)
    }

    /// Opens it anew under the lock that is held. It stands at this path.
    pub fn open<R: Files<File = File> + AllocGlobal>(
        &self,
        rt: &R,
        path: &str,
    ) -> Result<FileDevice, FileError>
        ensures { IfOk result (λ device. IsDurable (file_bytes device) (file_may_leave device)) }
    {
        let file = self.file.try_clone()?;
        FileDevice::of_locked(rt, path, file)
    }
}
