ghost use Rattle.std.specs.Io.{ReadsAtMost, WritesAtMost};

use crate::deadline::{Deadline, as_timed_out};
use control::ControlClient;
use std::cell::Cell;
use std::io;
use std::io::{Read, Write};
use std::time::{Clock, Duration};

/// What a connection does, and until when.
#[derive(Clone, Copy)]
enum Phase {
    Idle,
    /// A line is written, up to a flush.
    Line(Deadline),
    /// An answer is read, up to the next line.
    Answer(Deadline),
}

/// How long each line and its answer have together, and what is done of them now.
#[derive(Drop)]
pub struct AnswerTime {
    time: Duration,
    phase: Cell<Phase>,
}

impl AnswerTime {
    pub fn new(time: Duration) -> AnswerTime {
        AnswerTime {
            time,
            phase: Cell::new(Phase::Idle),
        }
    }

    /// The end of the line that is written. The first write after a flush begins one.
    fn end_of_line<C: Clock>(&self, clock: &C) -> io::Result<Deadline> {
        match self.phase.get() {
            Phase::Line(deadline) => Ok(deadline),
            Phase::Idle | Phase::Answer(_) => Deadline::after(clock, self.time),
        }
    }

    /// The end of the answer that is read: that of its line.
    fn end_of_answer<C: Clock>(&self, clock: &C) -> io::Result<Deadline> {
        match self.phase.get() {
            Phase::Line(deadline) | Phase::Answer(deadline) => Ok(deadline),
            Phase::Idle => Deadline::after(clock, self.time),
        }
    }

    /// The line is written: its answer has what is left of its time.
    fn end_line(&self) {
        if let Phase::Line(deadline) = self.phase.get() {
            self.phase.set(Phase::Answer(deadline));
        }
    }
}

/// One side of a connection to a control place, whose other side has the same time. What comes too late is `TimedOut`, however many
/// bytes came before.
#[derive(Drop)]
pub struct TimedControl<'a, C: Clock> {
    clock: &'a C,
    client: &'a ControlClient,
    time: &'a AnswerTime,
}

impl<'a, C: Clock> TimedControl<'a, C> {
    pub fn new(
        clock: &'a C,
        client: &'a ControlClient,
        time: &'a AnswerTime,
    ) -> TimedControl<'a, C> {
        TimedControl {
            clock,
            client,
            time,
        }
    }

    fn read_in_time(&self, buf: &mut [u8]) -> io::Result<usize>
        ensures { ReadsAtMost result buf.new }
    {
        let deadline = self.time.end_of_answer(self.clock)?;
        self.time.phase.set(Phase::Answer(deadline));
        let left = deadline.left(self.clock)?;
        self.client.set_read_timeout(Some(left))?;
        let mut client = self.client;
        client.read(buf)
    }

    fn write_in_time(&self, buf: &[u8]) -> io::Result<usize>
        ensures { WritesAtMost result buf.now }
    {
        let deadline = self.time.end_of_line(self.clock)?;
        self.time.phase.set(Phase::Line(deadline));
        let left = deadline.left(self.clock)?;
        self.client.set_write_timeout(Some(left))?;
        let mut client = self.client;
        client.write(buf)
    }
}

impl<C: Clock> Read for TimedControl<'_, C> {
    fn read(&mut self, buf: &mut [u8]) -> io::Result<usize> {
        match self.read_in_time(buf) {
            Ok(count) => Ok(count),
            Err(error) => Err(as_timed_out(error)),
        }
    }
}

impl<C: Clock> Write for TimedControl<'_, C> {
    fn write(&mut self, buf: &[u8]) -> io::Result<usize> {
        match self.write_in_time(buf) {
            Ok(count) => Ok(count),
            Err(error) => Err(as_timed_out(error)),
        }
    }

    fn flush(&mut self) -> io::Result<()> {
        self.time.end_line();
        Ok(())
    }
}
