use mio::event::Source;
use mio::net::TcpStream;
use mio::{Interest, Registry, Token};
use reactor::{Socket, Stream};
use std::io;

/// Which of a server's two places a connection came to.
#[derive(Clone, Copy)]
pub enum Entrance {
    /// That of calls.
    Calls,
    /// That of plain requests, which takes calls too.
    Plain,
}

/// The stream of a client, and the place that it came to.
#[derive(Drop)]
pub struct Caller {
    stream: TcpStream,
    entrance: Entrance,
}

impl Caller {
    pub fn new(stream: TcpStream, entrance: Entrance) -> Caller {
        Caller { stream, entrance }
    }

    pub fn entrance(&self) -> Entrance {
        self.entrance
    }
}

impl Stream for Caller {
    ghost use Rattle.std.specs.Prelude.{None};

    ghost remaining = { λ _. None };

    ghost contents = { λ _. None };

    fn read(&mut self, buffer: &mut [u8]) -> io::Result<usize> {
        Stream::read(&mut self.stream, buffer)
    }

    fn write(&mut self, bytes: &[u8]) -> io::Result<usize> {
        Stream::write(&mut self.stream, bytes)
    }
}

impl Socket for Caller {
    fn register(
        &mut self,
        registry: &Registry,
        token: Token,
        interest: Interest,
    ) -> io::Result<()> {
        registry.register(&mut self.stream, token, interest)
    }

    fn reregister(
        &mut self,
        registry: &Registry,
        token: Token,
        interest: Interest,
    ) -> io::Result<()> {
        registry.reregister(&mut self.stream, token, interest)
    }

    fn shut(&mut self) -> io::Result<()> {
        Socket::shut(&mut self.stream)
    }

    fn send_at_once(&mut self) {
        Socket::send_at_once(&mut self.stream);
    }
}
