//! A file is written anew beside its place, and put there once it is on the disk.

ghost use Rattle.std.specs.Prelude.{◌≡◌, ◌++◌, ◌∷◌, [], ℕ, List, IfOk};
ghost use Rattle.record_log.specs.Log.{blocks};
ghost use Rattle.record_log.specs.FileView.{IsReadyFile};

use crate::file_device::{lock, sync_folder};
use crate::{FileDevice, FileError, HeldFile, NotReplaced, RecordLog};
use std::fs::File;
use std::os::unix::fs::FileExt;
use std::rt::Files;
use std::{fs, io};

/// Puts a file of this text, which is some entries' blocks and a closed gate, in the place of a log's. A crash leaves the one or the
/// other, and no moment leaves the path without a lock. Where another file is at the path by then, or none, it is left alone. After an
/// `Err`, open the path anew by the files that are held.
pub fn write_text_anew<R: Files<File = File> + AllocGlobal>(
    rt: &R,
    path: &str,
    old: RecordLog<FileDevice>,
    text: &[u8],
) -> Result<RecordLog<FileDevice>, NotReplaced>
    requires whole { (entries : List (List ℕ)) × (text.now ≡ blocks entries ++ 0 ∷ []) }
    ensures { (entries : List (List ℕ)) → text.now ≡ blocks entries ++ 0 ∷ []
        → IfOk result (λ log. IsReadyFile log entries) }
{
    let old = old.device.into_held();
    let file = match write_beside(rt, path, text) {
        Ok(file) => file,
        Err(error) => {
            discard(rt, path);
            return Err(NotReplaced {
                error,
                old,
                new: None,
            });
        }
    };
    match put_in_place(rt, path, &old) {
        Ok(()) => Ok(RecordLog {
            device: FileDevice::written(file, text),
            end: text.len() - 1,
        }),
        Err(error) => Err(NotReplaced {
            error,
            old,
            new: Some(HeldFile { file }),
        }),
    }
}

/// Where the new file of a path is written.
fn beside<R: AllocGlobal>(rt: &R, path: &str) -> Result<String, FileError> {
    Ok(format!(in rt.alloc(); "{path}.new")?)
}

/// Makes a locked file of this text beside the one at a path.
fn write_beside<R: Files<File = File> + AllocGlobal>(
    rt: &R,
    path: &str,
    text: &[u8],
) -> Result<File, FileError> {
    let beside = beside(rt, path)?;
    // A crash may have left one.
    match fs::remove_file(rt, beside.as_str()) {
        Err(error) if error.kind() != io::ErrorKind::NotFound => return Err(error.into()),
        _ => {}
    }
    let file = File::create_new(rt, beside.as_str())?;
    lock(rt, &file, beside.as_str())?;
    file.write_all_at(text, 0)?;
    file.sync_all()?;
    Ok(file)
}

/// Removes what was written of a file beside the one at a path: it takes up room, of which there may be none left.
fn discard<R: Files<File = File> + AllocGlobal>(rt: &R, path: &str) {
    if let Ok(beside) = beside(rt, path) {
        let _ = fs::remove_file(rt, beside.as_str());
    }
}

/// Puts the file beside the one at a path in its place, if that is still this one.
fn put_in_place<R: Files<File = File> + AllocGlobal>(
    rt: &R,
    path: &str,
    old: &HeldFile,
) -> Result<(), FileError> {
    if !old.is_at(rt, path) {
        discard(rt, path);
        return Err(FileError::InUse);
    }
    let beside = beside(rt, path)?;
    fs::rename(rt, beside.as_str(), path)?;
    Ok(sync_folder(rt, path)?)
}
