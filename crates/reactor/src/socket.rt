use crate::stream::Stream;
use control::ControlStream;
use mio::event::Source;
use mio::net::TcpStream;
use mio::{Interest, Registry, Token};
use std::io;
use std::io::{Read, Write};
use std::net::Shutdown;

/// A stream that a poll reports.
pub trait Socket: Stream {
    ghost use Rattle.std.specs.Prelude.{◌≡◌};

    /// Has the poll report it under this token, now and each time that it becomes ready.
    fn register(&mut self, registry: &Registry, token: Token, interest: Interest) -> io::Result<()>
        ensures remaining { Self.remaining self.new ≡ Self.remaining self.old }
        ensures contents { Self.contents self.new ≡ Self.contents self.old };

    /// The same where the poll reports it already.
    fn reregister(
        &mut self,
        registry: &Registry,
        token: Token,
        interest: Interest,
    ) -> io::Result<()>
        ensures remaining { Self.remaining self.new ≡ Self.remaining self.old }
        ensures contents { Self.contents self.new ≡ Self.contents self.old };

    /// Ends its writes, which its peer sees behind the last byte.
    fn shut(&mut self) -> io::Result<()>
        ensures remaining { Self.remaining self.new ≡ Self.remaining self.old }
        ensures contents { Self.contents self.new ≡ Self.contents self.old };

    /// Has each write sent at once, and not wait for the peer's acknowledgement of the one before.
    fn send_at_once(&mut self)
        ensures remaining { Self.remaining self.new ≡ Self.remaining self.old }
        ensures contents { Self.contents self.new ≡ Self.contents self.old };
}

impl Stream for TcpStream {
    ghost use Rattle.std.specs.Prelude.{None};

    ghost remaining = { λ _. None };

    ghost contents = { λ _. None };

    fn read(&mut self, buffer: &mut [u8]) -> io::Result<usize> {
        (&*self).read(buffer)
    }

    fn write(&mut self, bytes: &[u8]) -> io::Result<usize> {
        (&*self).write(bytes)
    }
}

impl Socket for TcpStream {
    fn register(
        &mut self,
        registry: &Registry,
        token: Token,
        interest: Interest,
    ) -> io::Result<()> {
        registry.register(self, token, interest)
    }

    fn reregister(
        &mut self,
        registry: &Registry,
        token: Token,
        interest: Interest,
    ) -> io::Result<()> {
        registry.reregister(self, token, interest)
    }

    fn shut(&mut self) -> io::Result<()> {
        self.shutdown(Shutdown::Write)
    }

    fn send_at_once(&mut self) {
        let _ = self.set_nodelay(true);
    }
}

impl Stream for ControlStream {
    ghost use Rattle.std.specs.Prelude.{None};

    ghost remaining = { λ _. None };

    ghost contents = { λ _. None };

    fn read(&mut self, buffer: &mut [u8]) -> io::Result<usize> {
        (&*self).read(buffer)
    }

    fn write(&mut self, bytes: &[u8]) -> io::Result<usize> {
        (&*self).write(bytes)
    }
}

impl Socket for ControlStream {
    fn register(
        &mut self,
        registry: &Registry,
        token: Token,
        interest: Interest,
    ) -> io::Result<()> {
        ControlStream::register(self, registry, token, interest)
    }

    fn reregister(
        &mut self,
        registry: &Registry,
        token: Token,
        interest: Interest,
    ) -> io::Result<()> {
        ControlStream::reregister(self, registry, token, interest)
    }

    fn shut(&mut self) -> io::Result<()> {
        self.shutdown(Shutdown::Write)
    }

    fn send_at_once(&mut self) {
        let _ = self.set_nodelay(true);
    }
}
