ghost use Rattle.std.specs.Prelude.{◌≡◌, ◌↔◌, IfSome, IsSome, None, Some};
ghost use Rattle.handover.specs.Address.{IsNotifyName, address_bytes};

use crate::address::Address;
use libc::net::{AF_UNIX, MSG_DONTWAIT, MSG_NOSIGNAL, SOCK_CLOEXEC, SOCK_DGRAM};
use os::FromRawFd;
use std::env::FillError;
use std::io;
use std::io::ErrorKind;
use std::marker::Model;
use std::os::fd::{AsRawFd, OwnedFd};
use std::rt::Env;

/// Tells a supervisor how far the process is, if one asked for it. Telling never waits, and threads may share it.
#[derive(Drop)]
pub struct Notifier {
    address: Option<Address>,
}

/// The address that it tells, if it tells any.
impl Model for Notifier {
    ghost use Rattle.std.specs.Prelude.{ℕ, List, Option};

    ghost Value = { Option (List ℕ) };

    ghost view = { λ notifier. notifier.address };
}

impl Notifier {
    /// Tells nobody.
    pub fn nobody() -> Notifier
        ensures { result ≡ None }
    {
        Notifier { address: None }
    }

    /// Tells the socket of this name: an absolute path, or `@` and a name of the abstract namespace.
    pub fn to(name: &[u8]) -> Option<Notifier>
        ensures some { IsSome result ↔ IsNotifyName name.now }
        ensures address { IfSome result (λ notifier. notifier ≡ Some (address_bytes name.now)) }
    {
        let address = Address::of(name)?;
        Some(Notifier {
            address: Some(address),
        })
    }

    /// Tells the socket that `NOTIFY_SOCKET` names, and nobody where it is missing or empty. Any other text is `InvalidInput`.
    pub fn from_env<R: Env>(rt: &R) -> io::Result<Notifier> {
        let mut name = [0u8; 128];
        match rt.var("NOTIFY_SOCKET", &mut name) {
            Ok(0) | Err(FillError::NotPresent) => Ok(Notifier::nobody()),
            Ok(len) => Notifier::to(&name[..len]).ok_or_else(bad_name),
            Err(FillError::TooLong) => Err(bad_name()),
        }
    }

    /// The process serves.
    pub fn ready(&self) -> io::Result<()> {
        self.tell(b"READY=1")
    }

    /// The process begins to stop.
    pub fn stopping(&self) -> io::Result<()> {
        self.tell(b"STOPPING=1")
    }

    /// Sends a datagram. `WouldBlock` says that the supervisor has no room for it.
    fn tell(&self, text: &[u8]) -> io::Result<()> {
        let Some(address) = &self.address else {
            return Ok(());
        };
        let fd = unsafe { libc::net::socket(AF_UNIX, SOCK_DGRAM | SOCK_CLOEXEC, 0) };
        if fd < 0 {
            return Err(io::Error::from_raw_os_error(os::errno()));
        }
        let socket = unsafe { OwnedFd::from_raw_fd(fd) };
        let flags = MSG_NOSIGNAL | MSG_DONTWAIT;
        let fd = socket.as_raw_fd();
        let sent = unsafe { libc::net::sendto(fd, text, flags, address.bytes(), address.len()) };
        if sent < 0 {
            return Err(io::Error::from_raw_os_error(os::errno()));
        }
        Ok(())
    }
}

fn bad_name() -> io::Error {
    io::Error::new(ErrorKind::InvalidInput, "NOTIFY_SOCKET names no socket")
}
