ghost use Rattle.std.specs.Prelude.{◌≡◌, ◌+◌, ◌<◌, ◌≤◌, ◌↔◌, ◌++◌, [], IfOk, IsTrue, drop, length, take};
ghost use Rattle.std.specs.Bool.{OnFalse, OnTrue};

use memchr::memrchr;
use std::alloc::{AllocError, Global};
use std::marker::Model;

/// The most bytes that wait.
const ROOM: usize = 65_536;

/// The most bytes that a pipe takes whole (PIPE_BUF of Linux).
const MAX_WRITE: usize = 4_096;

/// The bytes of lines that wait to be written, the oldest first. Contracts see them as a list.
#[derive(Drop)]
pub struct Waiting {
    bytes: Vec<u8>,
}

impl Model for Waiting {
    ghost use Rattle.std.specs.Prelude.{ℕ, ◌≤◌, List, vec_len};
    ghost use Rattle.std.specs.Vec.{vec_capacity};

    ghost Value = { List ℕ };

    ghost view = { λ waiting. waiting.bytes.items };

    ghost invariant = { λ waiting.
        (vec_len waiting.bytes ≤ 65536) × (65536 ≤ vec_capacity waiting.bytes) };
}

impl Waiting {
    /// Nothing that waits. It takes its memory at once, and no more later.
    pub fn new(alloc: Global) -> Result<Waiting, AllocError>
        ensures { IfOk result (λ waiting. waiting ≡ []) }
    {
        Ok(Waiting {
            bytes: Vec::with_capacity(alloc, ROOM)?,
        })
    }

    /// Whether there is room for this line, which then waits whole.
    pub fn push(&mut self, line: &[u8]) -> bool
        ensures room { IsTrue result ↔ (length self.old + length line.now ≤ 65536) }
        ensures pushed { OnTrue result (self.new ≡ self.old ++ line.now) }
        ensures full { OnFalse result (self.new ≡ self.old) }
    {
        if line.len() > ROOM - self.bytes.len() {
            return false;
        }
        self.bytes.extend_from_slice(line).is_ok()
    }

    pub fn is_empty(&self) -> bool
        ensures { IsTrue result ↔ (self.now ≡ []) }
    {
        self.bytes.is_empty()
    }

    /// What is written next: of the first 4,096 bytes as many whole lines as there are, or all of a longer line's that fit.
    pub fn next(&self) -> &[u8]
        ensures front { result.now ≡ take (length result.now) self.now }
        ensures most { length result.now ≤ 4096 }
        ensures some { 0 < length self.now → 0 < length result.now }
    {
        let front = &self.bytes[..self.bytes.len().min(MAX_WRITE)];
        match memrchr(b'\n', front) {
            Some(last) => &front[..last + 1],
            None => front,
        }
    }

    /// So many bytes at the front are written.
    pub fn drop_front(&mut self, count: usize)
        requires { count ≤ length self.old }
        ensures { self.new ≡ drop count self.old }
    {
        self.bytes.rotate_left(count);
        let left = self.bytes.len() - count;
        self.bytes.truncate(left);
    }
}
