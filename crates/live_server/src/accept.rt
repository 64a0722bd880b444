use mio::{Poll, Token};
use std::io;

/// A socket that connections come to, each a stream whose reads and writes do not wait.
pub trait Accept<S>: Drop {
    /// Has the poll report connections under this token, until it is closed: at once if some wait, and then when one comes.
    fn report(&mut self, poll: &Poll, token: Token) -> io::Result<()>;

    /// The next connection, or `WouldBlock` where none waits, or it is closed.
    fn accept(&mut self) -> io::Result<S>;

    /// Accepts no more. Clients that come are refused, at the latest once it is dropped.
    fn close(&mut self, poll: &Poll, token: Token);

    fn is_closed(&self) -> bool;
}
