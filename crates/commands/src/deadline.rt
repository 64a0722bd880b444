ghost use Rattle.std.specs.Prelude.{◌≡◌, ◌≢◌, ◌<◌, IfOk};
ghost use Rattle.std.specs.IoError.{error_kind};
ghost use Rattle.std.specs.Duration.{as_nanos};
ghost use Rattle.std.specs.Io.{ReadsAtMost, WritesAtMost};

use std::io;
use std::io::{ErrorKind, Read, Write};
use std::net::TcpStream;
use std::time::{Clock, Duration, Instant};

/// The moment at which a call has to be over.
#[derive(Clone, Copy)]
pub struct Deadline(Instant);

impl Deadline {
    /// So long from now.
    pub fn after<C: Clock>(clock: &C, time: Duration) -> io::Result<Deadline> {
        match Instant::now(clock)?.checked_add(time) {
            Some(end) => Ok(Deadline(end)),
            None => Err(io::Error::from(ErrorKind::InvalidInput)),
        }
    }

    /// The time that is left. `TimedOut` where there is none.
    pub fn left<C: Clock>(self, clock: &C) -> io::Result<Duration>
        ensures { IfOk result (λ left. 0 < as_nanos left) }
    {
        let left = self.0.saturating_duration_since(Instant::now(clock)?);
        if left.is_zero() {
            return Err(io::Error::from(ErrorKind::TimedOut));
        }
        Ok(left)
    }
}

/// An error of a call that waited as long as it might: `TimedOut` also where the system says that the call would block.
pub(crate) fn as_timed_out(error: io::Error) -> io::Error
    ensures late { error_kind error ≡ ErrorKind.WouldBlock → error_kind result ≡ ErrorKind.TimedOut }
    ensures others { error_kind error ≢ ErrorKind.WouldBlock → result ≡ error }
{
    match error.kind() {
        ErrorKind::WouldBlock => io::Error::from(ErrorKind::TimedOut),
        _ => error,
    }
}

/// A stream each of whose reads and writes ends at a deadline, and is `TimedOut` then.
#[derive(Drop)]
pub struct TimedStream<'a, C: Clock> {
    clock: &'a C,
    stream: &'a TcpStream,
    deadline: Deadline,
    is_late: bool,
}

impl<'a, C: Clock> TimedStream<'a, C> {
    pub fn new(clock: &'a C, stream: &'a TcpStream, deadline: Deadline) -> TimedStream<'a, C> {
        TimedStream {
            clock,
            stream,
            deadline,
            is_late: false,
        }
    }

    /// Whether a read or a write was `TimedOut`.
    pub fn is_late(&self) -> bool {
        self.is_late
    }

    /// Notes whether the time was up.
    fn note(&mut self, error: io::Error) -> io::Error {
        let error = as_timed_out(error);
        if error.kind() == ErrorKind::TimedOut {
            self.is_late = true;
        }
        error
    }

    fn read_in_time(&self, buf: &mut [u8]) -> io::Result<usize>
        ensures { ReadsAtMost result buf.new }
    {
        let left = self.deadline.left(self.clock)?;
        self.stream.set_read_timeout(Some(left))?;
        let mut stream = self.stream;
        stream.read(buf)
    }

    fn write_in_time(&self, buf: &[u8]) -> io::Result<usize>
        ensures { WritesAtMost result buf.now }
    {
        let left = self.deadline.left(self.clock)?;
        self.stream.set_write_timeout(Some(left))?;
        let mut stream = self.stream;
        stream.write(buf)
    }
}

impl<C: Clock> Read for TimedStream<'_, C> {
    fn read(&mut self, buf: &mut [u8]) -> io::Result<usize> {
        match self.read_in_time(buf) {
            Ok(count) => Ok(count),
            Err(error) => Err(self.note(error)),
        }
    }
}

impl<C: Clock> Write for TimedStream<'_, C> {
    fn write(&mut self, buf: &[u8]) -> io::Result<usize> {
        match self.write_in_time(buf) {
            Ok(count) => Ok(count),
            Err(error) => Err(self.note(error)),
        }
    }

    fn flush(&mut self) -> io::Result<()> {
        Ok(())
    }
}
