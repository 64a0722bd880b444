use std::io;

/// What the bytes of a conversation go over: a socket, or memory. Where a read or a write would wait it returns an error of the kind
/// `WouldBlock`.
///
/// `remaining` are the bytes that reads will give, and `contents` those that writes have taken, where they are known: those of a socket
/// are not.
pub trait Stream: Drop {
    ghost use Rattle.std.specs.Prelude.{◌≡◌, ℕ, List, Option, length};
    ghost use Rattle.std.specs.Io.{ReadsAtMost, WritesAtMost};
    ghost use Rattle.std.specs.Io.KnownBytes.{ReadConsumes, WriteAppends};

    ghost remaining: { Self → Option (List ℕ) };

    ghost contents: { Self → Option (List ℕ) };

    /// Reads into the front of the buffer, and tells how many bytes; none at the end.
    fn read(&mut self, buffer: &mut [u8]) -> io::Result<usize>
        ensures bound { ReadsAtMost result buffer.new }
        ensures bytes { ReadConsumes (remaining self.old) (remaining self.new) result buffer.new }
        ensures len { length buffer.new ≡ length buffer.old }
        ensures contents { contents self.new ≡ contents self.old };

    /// Takes a front of the bytes, and tells how many.
    fn write(&mut self, bytes: &[u8]) -> io::Result<usize>
        ensures bound { WritesAtMost result bytes.now }
        ensures bytes { WriteAppends (contents self.old) (contents self.new) result bytes.now }
        ensures remaining { remaining self.new ≡ remaining self.old };
}
