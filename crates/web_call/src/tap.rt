ghost use Rattle.std.specs.Prelude.{◌≡◌, ◌||◌, ◌==◌, false, is_err, length};
ghost use Rattle.std.specs.Io.{ReadsAtMost, WritesAtMost};
ghost use Rattle.std.specs.Io.KnownBytes.{Keeps, ReadConsumes, WriteAppends};
ghost use Rattle.web_call.specs.Tap.{tap_inner, tap_failed, tap_idle, is_refused};

use std::io;
use std::io::{Read, Write};

/// A reader or a writer, whether a call through it has failed, and whether one was given an empty buffer.
#[derive(Drop)]
pub struct Tap<T> {
    inner: T,
    failed: bool,
    idle: bool,
}

impl<T> Tap<T> {
    /// A tap through which nothing has failed yet.
    pub fn new(inner: T) -> Tap<T>
        ensures inner { tap_inner result ≡ inner }
        ensures failed { tap_failed result ≡ false }
        ensures idle { tap_idle result ≡ false }
    {
        Tap {
            inner,
            failed: false,
            idle: false,
        }
    }

    /// Whether a read, a write or a flush returned an error, or a write took no byte, also one of an empty buffer.
    pub fn failed(&self) -> bool
        ensures { result ≡ tap_failed self.now }
    {
        self.failed
    }

    /// Whether a read or a write was given an empty buffer: what such a call returns says nothing of the reader or writer.
    pub fn idle(&self) -> bool
        ensures { result ≡ tap_idle self.now }
    {
        self.idle
    }
}

impl<R: Read> Read for Tap<R> {
    ghost remaining = { λ tap. R.remaining (tap_inner tap) };

    fn read(&mut self, buf: &mut [u8]) -> io::Result<usize>
        ensures bound { ReadsAtMost result buf.new }
        ensures bytes { ReadConsumes (R.remaining (tap_inner self.old))
            (R.remaining (tap_inner self.new)) result buf.new }
        ensures failed { tap_failed self.new ≡ (tap_failed self.old || is_err result) }
        ensures idle { tap_idle self.new ≡ (tap_idle self.old || (length buf.old == 0)) }
    {
        self.idle = self.idle || buf.is_empty();
        let result = self.inner.read(buf);
        self.failed = self.failed || result.is_err();
        result
    }
}

impl<W: Write> Write for Tap<W> {
    ghost contents = { λ tap. W.contents (tap_inner tap) };

    fn write(&mut self, buf: &[u8]) -> io::Result<usize>
        ensures bound { WritesAtMost result buf.now }
        ensures bytes { WriteAppends (W.contents (tap_inner self.old))
            (W.contents (tap_inner self.new)) result buf.now }
        ensures failed { tap_failed self.new ≡ (tap_failed self.old || is_refused result) }
        ensures idle { tap_idle self.new ≡ (tap_idle self.old || (length buf.now == 0)) }
    {
        self.idle = self.idle || buf.is_empty();
        let result = self.inner.write(buf);
        self.failed = self.failed || matches!(result, Ok(0) | Err(_));
        result
    }

    fn flush(&mut self) -> io::Result<()>
        ensures bytes { Keeps (W.contents (tap_inner self.old)) (W.contents (tap_inner self.new)) }
        ensures failed { tap_failed self.new ≡ (tap_failed self.old || is_err result) }
        ensures idle { tap_idle self.new ≡ tap_idle self.old }
    {
        let result = self.inner.flush();
        self.failed = self.failed || result.is_err();
        result
    }
}
