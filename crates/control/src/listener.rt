ghost use Rattle.std.specs.IoError.{error_kind};
ghost use Rattle.std.specs.Prelude.{◌≡◌, ◌↔◌, IfOk, IsErrAnd, IsTrue, None};
ghost use Rattle.control.specs.Listener.{path_listened};
ghost use Rattle.control.specs.Place.{IsLocal, path_of};

use crate::place::Place;
use crate::stream::ControlStream;
use crate::unix_place::{Access, UnixPlace};
use mio::event::Source;
use mio::net::TcpListener;
use mio::{Interest, Registry, Token};
use std::alloc::Global;
use std::fs::Files;
use std::io;
use std::io::ErrorKind;
use std::net::Net;

/// A socket that listens at a control place, and does not wait.
#[derive(Drop)]
pub enum ControlListener {
    Tcp(TcpListener),
    Unix(UnixPlace),
}

impl ControlListener {
    /// Listens there and nowhere else. A place that is not local is `InvalidInput`. Who may connect is said of a Unix socket alone.
    pub fn bind<R: Files + Net>(
        rt: &R,
        alloc: Global,
        place: Place<'_>,
        access: Access,
    ) -> io::Result<ControlListener>
        ensures local { IfOk result (λ _. IsLocal place.entry) }
        ensures path { IfOk result (λ listener. path_listened listener ≡ path_of place.entry) }
        ensures elsewhere { ¬ (IsLocal place.entry) → IsErrAnd result
            (λ error. error_kind error ≡ ErrorKind.InvalidInput) }
    {
        if !place.is_local() {
            return Err(io::Error::from(ErrorKind::InvalidInput));
        }
        match place {
            Place::Address(addr) => Ok(ControlListener::Tcp(TcpListener::bind(rt, addr)?)),
            Place::Path(path) => Ok(ControlListener::Unix(UnixPlace::bind(
                rt, alloc, path, access,
            )?)),
        }
    }

    /// Where it listens, with the port that the system picked for port 0.
    pub fn place(&self) -> io::Result<Place<'_>>
        ensures path { IfOk result (λ place. path_of place ≡ path_listened self.now) }
    {
        match self {
            ControlListener::Tcp(listener) => Ok(Place::Address(listener.local_addr()?)),
            ControlListener::Unix(place) => Ok(Place::Path(place.path())),
        }
    }

    /// Whether it listens at an address, which web pages reach too.
    pub fn is_tcp(&self) -> bool
        ensures { IsTrue result ↔ (path_listened self.now ≡ None) }
    {
        matches!(self, ControlListener::Tcp(_))
    }

    /// The next connection, or `WouldBlock` where none waits.
    pub fn accept(&self) -> io::Result<ControlStream> {
        match self {
            ControlListener::Tcp(listener) => {
                let (stream, _) = listener.accept()?;
                Ok(ControlStream::Tcp(stream))
            }
            ControlListener::Unix(place) => {
                let (stream, _) = place.listener().accept()?;
                Ok(ControlStream::Unix(stream))
            }
        }
    }

    /// Takes the file of a Unix socket away, where it is still this one's. Clients that connect afterwards find nobody.
    pub fn remove<R: Files>(&self, rt: &R) -> io::Result<()> {
        match self {
            ControlListener::Tcp(_) => Ok(()),
            ControlListener::Unix(place) => place.remove(rt),
        }
    }

    /// Has a poll report under this token that a connection may wait.
    pub fn register(
        &mut self,
        registry: &Registry,
        token: Token,
        interest: Interest,
    ) -> io::Result<()> {
        match self {
            ControlListener::Tcp(listener) => listener.register(registry, token, interest),
            ControlListener::Unix(place) => {
                place.listener_mut().register(registry, token, interest)
            }
        }
    }
}
