//! Jobs of tests.

use crew::{Job, Unopened};
use std::alloc::Global;
use std::io;
use std::io::{Read, Sink, Write};
use std::process::Abort;
use std::sync::atomic::{AtomicU32, Ordering};

/// A request that waits for its answer, unless its two ends were lost. It counts its opening.
#[derive(Drop)]
pub(crate) struct Letter<'a, R, W> {
    ends: Option<(R, W)>,
    opened: &'a AtomicU32,
}

impl<'a, R, W> Letter<'a, R, W> {
    pub(crate) fn new(ends: Option<(R, W)>, opened: &'a AtomicU32) -> Letter<'a, R, W> {
        Letter { ends, opened }
    }
}

impl<R: Read + Drop, W: Write + Drop> Job for Letter<'_, R, W> {
    type Input = R;

    type Output = W;

    fn open(self) -> Result<(R, W), Unopened> {
        let Letter { ends, opened } = self;
        opened.fetch_add(1, Ordering::SeqCst);
        ends.ok_or(Unopened)
    }
}

/// An end of a call. Where it is dropped it puts this digit behind the steps that were made.
pub(crate) struct Noted<'a, T> {
    pub(crate) end: T,
    pub(crate) digit: u32,
    pub(crate) steps: &'a AtomicU32,
}

/// Puts a digit behind the steps that were made.
pub(crate) fn note(steps: &AtomicU32, digit: u32) {
    let before = steps.load(Ordering::SeqCst);
    let now = before.saturating_mul(10).saturating_add(digit);
    steps.store(now, Ordering::SeqCst);
}

impl<T: Drop> Drop for Noted<'_, T> {
    fn drop(self) {
        let Noted {
            end: _,
            digit,
            steps,
        } = self;
        note(steps, digit);
    }
}

impl<R: Read> Read for Noted<'_, R> {
    fn read(&mut self, buf: &mut [u8]) -> io::Result<usize> {
        self.end.read(buf)
    }
}

impl<W: Write> Write for Noted<'_, W> {
    fn write(&mut self, buf: &[u8]) -> io::Result<usize> {
        self.end.write(buf)
    }

    fn flush(&mut self) -> io::Result<()> {
        self.end.flush()
    }
}

/// A letter with a request over bytes, whose answer nobody reads.
pub(crate) type Note<'a> = Letter<'a, &'static [u8], Sink>;

/// Letters with these requests. One without a request can't be opened.
pub(crate) fn notes<'a>(
    rt: &impl Abort,
    alloc: Global,
    requests: &[Option<&'static [u8]>],
    opened: &'a AtomicU32,
) -> Vec<Note<'a>> {
    let mut notes = Vec::new(alloc);
    for request in requests {
        let ends = request.map(|text| (text, io::sink()));
        notes.push(Letter::new(ends, opened)).expect(rt, "memory");
    }
    notes
}
