//! Whether the journal of systemd reads standard error (sd-daemon(3)).

use std::fs;
use std::os::unix::fs::MetadataExt;
use std::rt::{Env, Files};

/// The environment variable that has the device and the inode of the journal's stream, as `8:4711`.
const JOURNAL_STREAM: &str = "JOURNAL_STREAM";

/// Two numbers of 64 bits have twenty digits each.
const STREAM_ROOM: usize = 41;

/// Standard error, as Linux names it.
const STANDARD_ERROR: &str = "/proc/self/fd/2";

/// Whether the journal reads standard error. A process whose standard error is another than its parent's may have the parent's variable, so
/// the numbers are compared.
pub(crate) fn is_read_by_journal<R: Env + Files>(rt: &R) -> bool {
    let mut room = [0; STREAM_ROOM];
    let Ok(length) = rt.var(JOURNAL_STREAM, &mut room) else {
        return false;
    };
    match (stream_in(&room[..length]), fs::metadata(rt, STANDARD_ERROR)) {
        (Some(stream), Ok(file)) => stream == (file.dev(), file.ino()),
        _ => false,
    }
}

/// The device and the inode that a text names.
fn stream_in(text: &[u8]) -> Option<(u64, u64)> {
    let (device, inode) = str::from_utf8(text).ok()?.split_once(':')?;
    Some((device.parse().ok()?, inode.parse().ok()?))
}
