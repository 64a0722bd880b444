ghost use Rattle.std.specs.Prelude.{◌≡◌, ◌≤◌, ◌<◌, [], length, take, IfOk, IfSome, IfNone, is_none, is_some, ◌||◌, true, Ok};
ghost use Rattle.std.specs.Io.KnownBytes.{Appends, Consumes, IsAtEnd};
ghost use Rattle.reactor.specs.Link.{link_has_read, link_reads, link_stream, link_writes, has_stopped};

use crate::socket::Socket;
use crate::stream::Stream;
use mio::{Interest, Registry, Token};
use std::io;
use std::io::ErrorKind;

/// How the last read or write over a link ended.
#[derive(Clone, Copy, Debug, PartialEq, Eq)]
pub enum Last {
    /// Bytes went over it, or none was tried yet.
    Went,
    /// Nothing goes now: there is no byte to read yet, or no room to write.
    Waits,
    /// The system interrupted it, so that it may be tried again at once.
    Interrupted,
    /// There are no more bytes to read, or none was taken.
    Ended,
    /// It returned any other error.
    Failed,
}

/// A stream that does not wait, and how its last read and its last write ended.
#[derive(Drop)]
pub struct Link<S> {
    stream: S,
    reads: Last,
    writes: Last,
    /// Whether a read has given bytes.
    has_read: bool,
    /// Whether bytes went over it since it was renewed.
    has_moved: bool,
}

fn last_of(kind: ErrorKind) -> Last
    ensures stops { has_stopped result ≡ true }
    ensures no_end { result ≡ Last.Ended → ⊥ }
{
    match kind {
        ErrorKind::WouldBlock => Last::Waits,
        ErrorKind::Interrupted => Last::Interrupted,
        _ => Last::Failed,
    }
}

/// How a call ended that moved so many bytes, and how many those are; none where it has stopped.
fn note(moved: io::Result<usize>) -> (Last, Option<usize>)
    ensures some { IfSome result.1 (λ count. (0 < count) × (moved ≡ Ok count)) }
    ensures none { IfNone result.1 (IfOk moved (λ count. count ≡ 0)) }
    ensures ended { result.0 ≡ Last.Ended → moved ≡ Ok 0 }
    ensures last { has_stopped result.0 ≡ is_none result.1 }
{
    match moved {
        Ok(0) => (Last::Ended, None),
        Ok(count) => (Last::Went, Some(count)),
        Err(error) => (last_of(error.kind()), None),
    }
}

impl<S> Link<S> {
    /// A link over which nothing was tried yet.
    pub fn new(stream: S) -> Link<S>
        ensures stream { link_stream result ≡ stream }
        ensures reads { link_reads result ≡ Last.Went }
        ensures writes { link_writes result ≡ Last.Went }
    {
        Link {
            stream,
            reads: Last::Went,
            writes: Last::Went,
            has_read: false,
            has_moved: false,
        }
    }

    /// Lets it be tried anew, so that how calls ended before no longer counts.
    pub fn renew(&mut self)
        ensures stream { link_stream self.new ≡ link_stream self.old }
        ensures reads { link_reads self.new ≡ Last.Went }
        ensures writes { link_writes self.new ≡ Last.Went }
    {
        self.reads = Last::Went;
        self.writes = Last::Went;
        self.has_moved = false;
    }

    /// How its last read ended.
    pub fn reads(&self) -> Last
        ensures { result ≡ link_reads self.now }
    {
        self.reads
    }

    /// How its last write ended.
    pub fn writes(&self) -> Last
        ensures { result ≡ link_writes self.now }
    {
        self.writes
    }

    /// Whether a read over it has given bytes.
    pub fn has_read(&self) -> bool
        ensures { result ≡ link_has_read self.now }
    {
        self.has_read
    }

    /// Whether bytes went over it, either way, since it was renewed or made.
    pub fn has_moved(&self) -> bool {
        self.has_moved
    }

    /// The stream behind it.
    pub fn stream(&self) -> &S
        ensures { result.now ≡ link_stream self.now }
    {
        &self.stream
    }
}

impl<S: Stream> Link<S> {
    /// Reads into the front of the buffer, and tells how many bytes; none where it has stopped.
    pub fn read(&mut self, buffer: &mut [u8]) -> Option<usize>
        requires { 0 < length buffer.old }
        ensures some { IfSome result (λ count. (0 < count) × (count ≤ length buffer.new)
            × Consumes (S.remaining (link_stream self.old)) (S.remaining (link_stream self.new))
            (take count buffer.new)) }
        ensures none { IfNone result (Consumes (S.remaining (link_stream self.old))
            (S.remaining (link_stream self.new)) []) }
        ensures ended { link_reads self.new ≡ Last.Ended
            → IsAtEnd (S.remaining (link_stream self.new)) }
        ensures last { has_stopped (link_reads self.new) ≡ is_none result }
        ensures writes { link_writes self.new ≡ link_writes self.old }
        ensures contents { S.contents (link_stream self.new) ≡ S.contents (link_stream self.old) }
        ensures len { length buffer.new ≡ length buffer.old }
        ensures has_read { link_has_read self.new ≡ link_has_read self.old || is_some result }
    {
        let (last, count) = note(self.stream.read(buffer));
        self.reads = last;
        self.has_read |= count.is_some();
        self.has_moved |= count.is_some();
        count
    }

    /// Writes a front of the bytes, and tells how many; none where it has stopped. It does not flush.
    pub fn write(&mut self, bytes: &[u8]) -> Option<usize>
        requires { 0 < length bytes.now }
        ensures some { IfSome result (λ count. (0 < count) × (count ≤ length bytes.now)
            × Appends (S.contents (link_stream self.old)) (S.contents (link_stream self.new))
            (take count bytes.now)) }
        ensures none { IfNone result (Appends (S.contents (link_stream self.old))
            (S.contents (link_stream self.new)) []) }
        ensures last { has_stopped (link_writes self.new) ≡ is_none result }
        ensures reads { link_reads self.new ≡ link_reads self.old }
        ensures remaining { S.remaining (link_stream self.new)
            ≡ S.remaining (link_stream self.old) }
    {
        let (last, count) = note(self.stream.write(bytes));
        self.writes = last;
        self.has_moved |= count.is_some();
        count
    }
}

impl<S: Socket> Link<S> {
    /// Has the poll report its stream under this token, now and each time that it becomes ready.
    pub fn register(
        &mut self,
        registry: &Registry,
        token: Token,
        interest: Interest,
    ) -> io::Result<()>
        ensures remaining { S.remaining (link_stream self.new)
            ≡ S.remaining (link_stream self.old) }
        ensures contents { S.contents (link_stream self.new) ≡ S.contents (link_stream self.old) }
    {
        self.stream.register(registry, token, interest)
    }

    /// The same where the poll reports it already.
    pub fn reregister(
        &mut self,
        registry: &Registry,
        token: Token,
        interest: Interest,
    ) -> io::Result<()>
        ensures remaining { S.remaining (link_stream self.new)
            ≡ S.remaining (link_stream self.old) }
        ensures contents { S.contents (link_stream self.new) ≡ S.contents (link_stream self.old) }
    {
        self.stream.reregister(registry, token, interest)
    }

    /// Ends its writes.
    pub fn shut(&mut self) -> io::Result<()>
        ensures remaining { S.remaining (link_stream self.new)
            ≡ S.remaining (link_stream self.old) }
        ensures contents { S.contents (link_stream self.new) ≡ S.contents (link_stream self.old) }
    {
        self.stream.shut()
    }

    /// Has each write sent at once.
    pub fn send_at_once(&mut self)
        ensures remaining { S.remaining (link_stream self.new)
            ≡ S.remaining (link_stream self.old) }
        ensures contents { S.contents (link_stream self.new) ≡ S.contents (link_stream self.old) }
    {
        self.stream.send_at_once();
    }
}
