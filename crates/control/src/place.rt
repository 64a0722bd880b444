ghost use Rattle.std.specs.Prelude.{◌≡◌, ◌↔◌, IsTrue, MatchOption};
ghost use Rattle.control.specs.Place.{IsLocal, IsLoopback, IsPlaceText, IsSocketPath};

use std::fmt;
use std::net::SocketAddr;

/// The longest path of a socket, in bytes. The system has 108 for it, with a NUL at the end.
const MAX_PATH_LEN: usize = 107;

/// Where a server is asked for changes.
#[derive(Clone, Copy)]
pub enum Place<'a> {
    /// A TCP socket. Port 0 has the system pick one.
    Address(SocketAddr),
    /// A Unix socket.
    Path(&'a str),
}

impl fmt::Display for Place<'_> {
    ghost use Rattle.std.specs.Prelude.{Some};
    ghost use Rattle.control.specs.Place.{place_text};

    ghost output = { λ place. Some (place_text place) };

    fn fmt<W: fmt::Write>(&self, f: &mut fmt::Formatter<W>) -> fmt::Result {
        match *self {
            Place::Address(addr) => write!(f, "{addr}"),
            Place::Path(path) => f.write_str(path),
        }
    }
}

impl fmt::Debug for Place<'_> {
    fn fmt<W: fmt::Write>(&self, f: &mut fmt::Formatter<W>) -> fmt::Result {
        fmt::Display::fmt(self, f)
    }
}

impl<'a> Place<'a> {
    /// Reads a path that begins with `/` and that a socket can have, or a loopback address and a port.
    #[tactic(auto, using(crate::proofs::PlaceLemmas::elsewhere_is_no_place, crate::proofs::PlaceLemmas::neither_is_no_place))]
    pub fn read(text: &'a str) -> Option<Place<'a>>
        ensures { MatchOption result ((place : Place) → ¬ (IsPlaceText text.now place)) (λ place. IsPlaceText text.now place) }
    {
        if is_socket_path(text) {
            return Some(Place::Path(text));
        }
        match text.parse::<SocketAddr>() {
            Ok(addr) => {
                if addr.ip().is_loopback() {
                    Some(Place::Address(addr))
                } else {
                    None
                }
            }
            Err(_) => None,
        }
    }

    /// Whether a server may listen there: `read` gives no other place.
    pub fn is_local(&self) -> bool
        ensures { IsTrue result ↔ IsLocal self.now }
    {
        match *self {
            Place::Address(addr) => addr.ip().is_loopback(),
            Place::Path(path) => is_socket_path(path),
        }
    }
}

fn is_socket_path(path: &str) -> bool
    ensures { IsTrue result ↔ IsSocketPath path.now }
{
    let bytes = path.as_bytes();
    bytes.starts_with(b"/") && !bytes.contains(&0) && bytes.len() <= MAX_PATH_LEN
}
