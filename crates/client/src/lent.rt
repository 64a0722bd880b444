ghost use Rattle.std.specs.Prelude.{◌≡◌, ◌<◌, ◌||◌, false, is_err, length};
ghost use Rattle.std.specs.Io.{ReadsAtMost, WritesAtMost};
ghost use Rattle.std.specs.Io.KnownBytes.{Keeps, ReadConsumes, WriteAppends};
ghost use Rattle.client.specs.Lent.{lent_inner, lent_failed, lent_name, is_stopped};

use std::io;
use std::io::{Read, Write};

/// A reader or a writer that is lent to a call, and whether a read, a write or a flush through it has failed.
#[derive(Drop)]
pub struct Lent<'a, T> {
    pub(crate) inner: &'a mut T,
    failed: bool,
}

impl<'a, T> Lent<'a, T> {
    /// A reader or a writer through which nothing has failed yet.
    pub fn new(inner: &'a mut T) -> Lent<'a, T>
        ensures reference { lent_name result ≡ inner.entry.ghost_name }
        ensures inner { lent_inner result ≡ inner.old }
        ensures failed { lent_failed result ≡ false }
    {
        Lent {
            inner,
            failed: false,
        }
    }

    /// Whether a read, a write or a flush returned an error, or a read or a write moved no byte.
    pub fn failed(&self) -> bool
        ensures { result ≡ lent_failed self.now }
    {
        self.failed
    }
}

impl<R: Read> Lent<'_, R> {
    /// Reads at least one byte, or fails. The buffer has room.
    pub(crate) fn read(&mut self, buf: &mut [u8]) -> io::Result<usize>
        requires { 0 < length buf.old }
        ensures reference { lent_name self.new ≡ lent_name self.old }
        ensures bound { ReadsAtMost result buf.new }
        ensures bytes { ReadConsumes (R.remaining (lent_inner self.old))
            (R.remaining (lent_inner self.new)) result buf.new }
        ensures failed { lent_failed self.new ≡ (lent_failed self.old || is_stopped result) }
    {
        let result = self.inner.read(buf);
        self.failed = self.failed || matches!(result, Ok(0) | Err(_));
        result
    }
}

impl<W: Write> Lent<'_, W> {
    /// Writes at least one byte, or fails. There is one to write.
    pub(crate) fn write(&mut self, buf: &[u8]) -> io::Result<usize>
        requires { 0 < length buf.now }
        ensures reference { lent_name self.new ≡ lent_name self.old }
        ensures bound { WritesAtMost result buf.now }
        ensures bytes { WriteAppends (W.contents (lent_inner self.old))
            (W.contents (lent_inner self.new)) result buf.now }
        ensures failed { lent_failed self.new ≡ (lent_failed self.old || is_stopped result) }
    {
        let result = self.inner.write(buf);
        self.failed = self.failed || matches!(result, Ok(0) | Err(_));
        result
    }

    /// Flushes, or fails.
    pub(crate) fn flush(&mut self) -> io::Result<()>
        ensures reference { lent_name self.new ≡ lent_name self.old }
        ensures bytes { Keeps (W.contents (lent_inner self.old))
            (W.contents (lent_inner self.new)) }
        ensures failed { lent_failed self.new ≡ (lent_failed self.old || is_err result) }
    {
        let result = self.inner.flush();
        self.failed = self.failed || result.is_err();
        result
    }
}
