ghost use Rattle.std.specs.Prelude.{◌≤ℤ◌, pos};

use libc::net::{POLLNVAL, POLLOUT};
use libc::types::pollfd;
use os::FromRawFd;
use std::io;
use std::io::ErrorKind;
use std::net::TcpListener;
use std::os::fd::OwnedFd;

/// The listening TCP socket that a descriptor of this process stands for. It is owned from then on, as a copy that is closed at `exec`.
pub(crate) fn listener_at(fd: i32) -> io::Result<TcpListener>
    requires { pos 0 ≤ℤ fd }
{
    if !is_listening(fd) {
        return Err(not_listening());
    }
    let handed = unsafe { OwnedFd::from_raw_fd(fd) };
    let listener = TcpListener::from(handed.try_clone()?);
    if listener.local_addr().is_err() {
        return Err(not_listening());
    }
    listener.set_nonblocking(true)?;
    Ok(listener)
}

pub(crate) fn not_listening() -> io::Error {
    io::Error::new(ErrorKind::InvalidInput, "not a listening TCP socket")
}

/// Whether a descriptor of this process is open.
pub(crate) fn is_open(fd: i32) -> bool {
    match polled(fd, 0) {
        Some(found) => found & POLLNVAL == 0,
        None => false,
    }
}

/// Whether a descriptor may be a listening socket, which is open and never writable.
fn is_listening(fd: i32) -> bool {
    polled(fd, POLLOUT) == Some(0)
}

/// What a poll finds at once, unless it fails.
fn polled(fd: i32, events: i16) -> Option<i16> {
    let mut asked = [pollfd {
        fd,
        events,
        revents: 0,
    }];
    if libc::net::poll(&mut asked, 0) < 0 {
        return None;
    }
    let [found] = asked;
    Some(found.revents)
}
