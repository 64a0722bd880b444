//! Calls on sockets that do not wait.

ghost use Rattle.std.specs.Prelude.{◌≤◌, length, IfOk, IfSome};

use mio::net::TcpStream;
use std::io;
use std::io::{ErrorKind, Read, Write};

/// How far a connection that is made has come.
#[derive(Clone, Copy)]
pub(crate) enum Work {
    Waits,
    Done,
    Failed,
}

/// Whether the connection stands.
pub(crate) fn glance(stream: &TcpStream) -> Work {
    match stream.take_error() {
        Ok(None) => {}
        Ok(Some(_)) => return Work::Failed,
        Err(_) => return Work::Failed,
    }
    match stream.peer_addr() {
        Ok(_) => Work::Done,
        Err(error) if error.kind() == ErrorKind::NotConnected => Work::Waits,
        Err(_) => Work::Failed,
    }
}

/// Writes as much as the socket takes now of a text of which so many bytes are sent. It tells how many are sent then.
pub(crate) fn write_on(stream: &mut TcpStream, text: &[u8], sent: usize) -> io::Result<usize>
    requires { sent ≤ length text.now }
    ensures { IfOk result (λ sent. sent ≤ length text.now) }
{
    if sent == text.len() {
        return Ok(sent);
    }
    match stream.write(&text[sent..]) {
        Ok(count) => Ok(sent + count),
        Err(error) if error.kind() == ErrorKind::WouldBlock => Ok(sent),
        Err(error) => Err(error),
    }
}

/// Reads what has come. None where nothing has.
pub(crate) fn read_into(stream: &mut TcpStream, piece: &mut [u8]) -> io::Result<Option<usize>>
    ensures { IfOk result (λ count. IfSome count (λ count. count ≤ length piece.new)) }
{
    match stream.read(piece) {
        Ok(count) => Ok(Some(count)),
        Err(error) if error.kind() == ErrorKind::WouldBlock => Ok(None),
        Err(error) => Err(error),
    }
}
