//! A reader and a writer that fail at a chosen call.

ghost use Rattle.std.specs.Prelude.{◌≡◌, ◌≤◌, IfOk, None};
ghost use Rattle.std.specs.Io.{ReadsAtMost, WritesAtMost};
ghost use Rattle.std.specs.Io.KnownBytes.{Keeps, ReadConsumes, WriteAppends};
ghost use Rattle.test_support.specs.Faulty.{one_more, reads_of, calls_of};

use std::alloc::Global;
use std::io;
use std::io::{ErrorKind, Read, Write};

/// What a faulty call does.
#[derive(Clone, Copy, Debug)]
pub enum Fault {
    /// It returns an error of this kind.
    Error(ErrorKind),
    /// A read gives no byte, and a write takes none. A flush succeeds.
    Nothing,
}

// Counts calls from 1, and lets one of them be faulty.
#[derive(Clone, Copy)]
struct Calls {
    count: usize,
    faulty: usize,
    fault: Fault,
}

impl Calls {
    fn new(faulty: usize, fault: Fault) -> Calls {
        Calls {
            count: 0,
            faulty,
            fault,
        }
    }

    // Counts a call, and tells the most bytes that it may move.
    fn begin(&mut self, most: usize) -> io::Result<usize>
        ensures within { IfOk result (λ count. count ≤ most) }
        ensures counted { self.new.count ≡ one_more self.old.count }
    {
        self.count = self.count.saturating_add(1);
        if self.count != self.faulty {
            return Ok(most);
        }
        match self.fault {
            Fault::Error(kind) => Err(io::Error::from(kind)),
            Fault::Nothing => Ok(0),
        }
    }
}

/// A reader over bytes, one of whose reads is faulty.
#[derive(Drop)]
pub struct FaultyReader<'a> {
    rest: &'a [u8],
    calls: Calls,
}

impl<'a> FaultyReader<'a> {
    /// A reader whose call of this number is faulty, counted from 1. At 0 none is.
    pub fn new(bytes: &'a [u8], faulty: usize, fault: Fault) -> FaultyReader<'a> {
        FaultyReader {
            rest: bytes,
            calls: Calls::new(faulty, fault),
        }
    }

    /// How often `read` was called.
    pub fn calls(&self) -> usize
        ensures { result ≡ reads_of self.now }
    {
        self.calls.count
    }

    /// The bytes that were not read.
    pub fn rest(&self) -> &'a [u8] {
        self.rest
    }
}

impl Read for FaultyReader<'_> {
    fn read(&mut self, buf: &mut [u8]) -> io::Result<usize>
        ensures bound { ReadsAtMost result buf.new }
        ensures bytes { ReadConsumes None None result buf.new }
        ensures counted { reads_of self.new ≡ one_more (reads_of self.old) }
    {
        let count = self.calls.begin(buf.len())?;
        self.rest.read(&mut buf[..count])
    }
}

/// A writer into memory, one of whose calls of `write` and `flush` is faulty.
#[derive(Drop)]
pub struct FaultyWriter {
    written: Vec<u8>,
    flushes: Vec<usize>,
    most: usize,
    calls: Calls,
}

impl FaultyWriter {
    /// A writer that takes at most so many bytes a call, and whose call of this number is faulty, counted from 1. At 0
    /// none is.
    pub fn new(alloc: Global, most: usize, faulty: usize, fault: Fault) -> FaultyWriter {
        FaultyWriter {
            written: Vec::new(alloc),
            flushes: Vec::new(alloc),
            most,
            calls: Calls::new(faulty, fault),
        }
    }

    /// How often `write` and `flush` were called, taken together.
    pub fn calls(&self) -> usize
        ensures { result ≡ calls_of self.now }
    {
        self.calls.count
    }

    /// The bytes that were taken.
    pub fn written(&self) -> &[u8] {
        &self.written
    }

    /// How many bytes had been taken at each flush that succeeded.
    pub fn flushes(&self) -> &[usize] {
        &self.flushes
    }
}

impl Write for FaultyWriter {
    fn write(&mut self, buf: &[u8]) -> io::Result<usize>
        ensures bound { WritesAtMost result buf.now }
        ensures bytes { WriteAppends None None result buf.now }
        ensures counted { calls_of self.new ≡ one_more (calls_of self.old) }
    {
        let count = self.calls.begin(self.most.min(buf.len()))?;
        self.written.write(&buf[..count])
    }

    fn flush(&mut self) -> io::Result<()>
        ensures bytes { Keeps None None }
        ensures counted { calls_of self.new ≡ one_more (calls_of self.old) }
    {
        self.calls.begin(0)?;
        match self.flushes.push(self.written.len()) {
            Ok(()) => Ok(()),
            Err(_) => Err(io::Error::from(ErrorKind::OutOfMemory)),
        }
    }
}
