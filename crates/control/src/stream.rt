ghost use Rattle.std.specs.Io.{ReadsAtMost, WritesAtMost};
ghost use Rattle.std.specs.Prelude.{◌≡◌};

use mio::event::Source;
use mio::net::{TcpStream, UnixStream};
use mio::{Interest, Registry, Token};
use std::io;
use std::io::{Read, Write};
use std::net::Shutdown;

/// A connection at a control place, whose reads and writes answer `WouldBlock` where they would wait.
#[derive(Drop)]
pub enum ControlStream {
    Tcp(TcpStream),
    Unix(UnixStream),
}

impl ControlStream {
    /// Ends its reads, its writes, or both.
    pub fn shutdown(&self, how: Shutdown) -> io::Result<()> {
        match self {
            ControlStream::Tcp(stream) => stream.shutdown(how),
            ControlStream::Unix(stream) => stream.shutdown(how),
        }
    }

    /// Whether TCP sends each write at once. A Unix socket always does.
    pub fn set_nodelay(&self, nodelay: bool) -> io::Result<()> {
        match self {
            ControlStream::Tcp(stream) => stream.set_nodelay(nodelay),
            ControlStream::Unix(_) => Ok(()),
        }
    }

    /// Has a poll report it under this token, now and each time that it becomes ready.
    pub fn register(
        &mut self,
        registry: &Registry,
        token: Token,
        interest: Interest,
    ) -> io::Result<()>
        ensures { self.new ≡ self.old }
    {
        match self {
            ControlStream::Tcp(stream) => stream.register(registry, token, interest),
            ControlStream::Unix(stream) => stream.register(registry, token, interest),
        }
    }

    /// The same where the poll reports it already.
    pub fn reregister(
        &mut self,
        registry: &Registry,
        token: Token,
        interest: Interest,
    ) -> io::Result<()>
        ensures { self.new ≡ self.old }
    {
        match self {
            ControlStream::Tcp(stream) => stream.reregister(registry, token, interest),
            ControlStream::Unix(stream) => stream.reregister(registry, token, interest),
        }
    }

    fn read_some(&self, buf: &mut [u8]) -> io::Result<usize>
        ensures { ReadsAtMost result buf.new }
    {
        match self {
            ControlStream::Tcp(stream) => (&*stream).read(buf),
            ControlStream::Unix(stream) => (&*stream).read(buf),
        }
    }

    fn write_some(&self, buf: &[u8]) -> io::Result<usize>
        ensures { WritesAtMost result buf.now }
    {
        match self {
            ControlStream::Tcp(stream) => (&*stream).write(buf),
            ControlStream::Unix(stream) => (&*stream).write(buf),
        }
    }
}

impl Read for &ControlStream {
    fn read(&mut self, buf: &mut [u8]) -> io::Result<usize> {
        (**self).read_some(buf)
    }
}

impl Write for &ControlStream {
    fn write(&mut self, buf: &[u8]) -> io::Result<usize> {
        (**self).write_some(buf)
    }

    fn flush(&mut self) -> io::Result<()> {
        Ok(())
    }
}
