ghost use Rattle.std.specs.Prelude.{◌≡◌, IfOk, IsErrAnd};
ghost use Rattle.std.specs.Io.{ReadsAtMost, WritesAtMost};
ghost use Rattle.std.specs.IoError.{error_kind};
ghost use Rattle.control.specs.Place.{IsLocal};

use crate::place::Place;
use std::io;
use std::io::{ErrorKind, Read, Write};
use std::net::{Net, TcpStream};
use std::os::unix::net::UnixStream;
use std::time::Duration;

/// A client's connection to a control place. Its calls wait.
#[derive(Drop)]
pub enum ControlClient {
    Tcp(TcpStream),
    Unix(UnixStream),
}

/// Connects to a server that listens there. A place that is not local is `InvalidInput`.
pub fn connect<R: Net<Stream = TcpStream>>(rt: &R, place: Place<'_>) -> io::Result<ControlClient>
    ensures local { IfOk result (λ _. IsLocal place.entry) }
    ensures elsewhere { ¬ (IsLocal place.entry) → IsErrAnd result (λ error. error_kind error ≡ ErrorKind.InvalidInput) }
{
    if !place.is_local() {
        return Err(io::Error::from(ErrorKind::InvalidInput));
    }
    match place {
        Place::Address(addr) => Ok(ControlClient::Tcp(TcpStream::connect(rt, addr)?)),
        Place::Path(path) => Ok(ControlClient::Unix(UnixStream::connect(rt, path)?)),
    }
}

/// Connects as `connect` does, and waits no longer than this for a socket of TCP. A Unix socket answers at once, as long as the server
/// takes connections.
pub fn connect_within<R: Net<Stream = TcpStream>>(
    rt: &R,
    place: Place<'_>,
    time: Duration,
) -> io::Result<ControlClient>
    ensures local { IfOk result (λ _. IsLocal place.entry) }
    ensures elsewhere { ¬ (IsLocal place.entry) → IsErrAnd result (λ error. error_kind error ≡ ErrorKind.InvalidInput) }
{
    match place {
        Place::Address(addr) if place.is_local() => {
            Ok(ControlClient::Tcp(TcpStream::connect_timeout(rt, &addr, time)?))
        }
        _ => connect(rt, place),
    }
}

impl ControlClient {
    /// How long a read may wait. One that waits longer is `WouldBlock`. A time of 0 is `InvalidInput`.
    pub fn set_read_timeout(&self, time: Option<Duration>) -> io::Result<()> {
        match self {
            ControlClient::Tcp(stream) => stream.set_read_timeout(time),
            ControlClient::Unix(stream) => stream.set_read_timeout(time),
        }
    }

    /// How long a write may wait. One that waits longer is `WouldBlock`. A time of 0 is `InvalidInput`.
    pub fn set_write_timeout(&self, time: Option<Duration>) -> io::Result<()> {
        match self {
            ControlClient::Tcp(stream) => stream.set_write_timeout(time),
            ControlClient::Unix(stream) => stream.set_write_timeout(time),
        }
    }

    fn read_some(&self, buf: &mut [u8]) -> io::Result<usize>
        ensures { ReadsAtMost result buf.new }
    {
        match self {
            ControlClient::Tcp(stream) => (&*stream).read(buf),
            ControlClient::Unix(stream) => (&*stream).read(buf),
        }
    }

    fn write_some(&self, buf: &[u8]) -> io::Result<usize>
        ensures { WritesAtMost result buf.now }
    {
        match self {
            ControlClient::Tcp(stream) => (&*stream).write(buf),
            ControlClient::Unix(stream) => (&*stream).write(buf),
        }
    }
}

impl Read for &ControlClient {
    fn read(&mut self, buf: &mut [u8]) -> io::Result<usize> {
        (**self).read_some(buf)
    }
}

impl Write for &ControlClient {
    fn write(&mut self, buf: &[u8]) -> io::Result<usize> {
        (**self).write_some(buf)
    }

    fn flush(&mut self) -> io::Result<()> {
        Ok(())
    }
}
