//! Where lines are written, without waiting for whoever reads them.

ghost use Rattle.std.specs.Prelude.{◌≤◌, length};

use crate::journal_stream::is_read_by_journal;
use libc::net::{MSG_DONTWAIT, MSG_NOSIGNAL, POLLERR, POLLOUT};
use libc::types::pollfd;
use libc::{ENOTSOCK, SEEK_CUR};
use std::rt::{Env, Files};

/// The descriptor of standard error.
const STANDARD_ERROR: i32 = 2;

/// Its file, as Linux names it.
const STANDARD_ERROR_PATH: &[u8] = b"/proc/self/fd/2";

/// What lines are written to: a descriptor of this process.
#[derive(Clone, Copy)]
pub struct Outlet {
    pub descriptor: i32,
    /// Whether other processes write by the same open file, so that it can't be told not to wait.
    pub is_shared: bool,
    /// Whether the journal of systemd reads it, which takes the priority of a line from its front.
    pub is_journal: bool,
}

impl Outlet {
    /// Standard error, by a descriptor that nothing else of this process has; none where it is closed. It is called before the process
    /// opens anything: what is opened while standard error is closed has its number.
    ///
    /// A pipe or a terminal is opened anew where the system allows that, so that a write to it never waits and nobody else's does
    /// either. Where it does not, as with sockets and with the terminals of other users, the open file stays shared; and so does one
    /// on a disk, since standard output may have the same, and each writes behind the other.
    pub fn standard_error<R: Env + Files>(rt: &R) -> Option<Outlet> {
        let shared = os::duplicate(STANDARD_ERROR);
        if shared < 0 {
            return None;
        }
        // A named pipe that nobody reads keeps whoever opens it waiting.
        if !has_position(shared) && polled(shared) & POLLERR == 0 {
            if let Some(outlet) = opened_anew(STANDARD_ERROR_PATH) {
                libc::close(shared);
                return Some(outlet);
            }
        }
        Some(Outlet {
            descriptor: shared,
            is_shared: true,
            is_journal: is_read_by_journal(rt),
        })
    }

    /// Writes some of these bytes, and tells how many: none where there is no room now, or nobody reads.
    pub(crate) fn write(self, bytes: &[u8]) -> usize
        ensures { result ≤ length bytes.now }
    {
        let Outlet {
            descriptor,
            is_shared,
            is_journal: _,
        } = self;
        let written = if is_shared {
            write_if_room(descriptor, bytes)
        } else {
            libc::write(descriptor, bytes)
        };
        if written < 0 {
            return 0;
        }
        // The system counts no more than it was given.
        (written as usize).min(bytes.len())
    }
}

/// Whether a descriptor's open file has a place that the next write goes to, as one on a disk has.
fn has_position(descriptor: i32) -> bool {
    libc::lseek(descriptor, 0, SEEK_CUR) >= 0
}

/// The file of this name, opened so that writes to it add to its end and do not wait. Its descriptor is above 2.
fn opened_anew(path: &[u8]) -> Option<Outlet> {
    let opened = os::open_append(path);
    if opened < 0 {
        return None;
    }
    let descriptor = os::duplicate(opened);
    libc::close(opened);
    if descriptor < 0 {
        return None;
    }
    if os::set_nonblocking(descriptor, true) != 0 {
        libc::close(descriptor);
        return None;
    }
    Some(Outlet {
        descriptor,
        is_shared: false,
        // The journal's socket can't be opened anew.
        is_journal: false,
    })
}

/// Writes some of these bytes, if there is room for them. A socket is told not to wait; what is none is asked for room before: a pipe
/// that has room at all has room for 4,096 bytes. Where nobody reads, the system would raise SIGPIPE, which the runtime ignores.
fn write_if_room(descriptor: i32, bytes: &[u8]) -> isize {
    let flags = MSG_NOSIGNAL | MSG_DONTWAIT;
    let sent = unsafe { libc::net::send(descriptor, bytes, flags) };
    if sent >= 0 || os::errno() != ENOTSOCK {
        return sent;
    }
    if polled(descriptor) & POLLOUT == 0 {
        return -1;
    }
    libc::write(descriptor, bytes)
}

/// What the system tells at once of a descriptor. Where it tells nothing, there is no room.
fn polled(descriptor: i32) -> i16 {
    let mut asked = [pollfd {
        fd: descriptor,
        events: POLLOUT,
        revents: 0,
    }];
    if libc::net::poll(&mut asked, 0) <= 0 {
        return 0;
    }
    let [found] = asked;
    found.revents
}
