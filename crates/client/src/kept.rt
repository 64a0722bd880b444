ghost use Rattle.std.specs.Prelude.{◌≡◌, ◌<◌, ◌≤◌, ◌+◌, [], ◌∷◌, ◌++◌, length};

use std::marker::Model;

/// How many bytes there is room for.
const ROOM: usize = 64;

/// The bytes of a short part of a response, until it is whole.
#[derive(Drop)]
pub(crate) struct Kept {
    bytes: [u8; ROOM],
    len: usize,
}

impl Model for Kept {
    ghost use Rattle.std.specs.Prelude.{ℕ, ◌≤◌, List, take};

    ghost Value = { List ℕ };

    ghost view = { λ kept. take kept.len kept.bytes };

    ghost invariant = { λ kept. kept.len ≤ 64 };
}

impl Kept {
    pub(crate) fn new() -> Kept
        ensures { result ≡ [] }
    {
        Kept {
            bytes: [0; ROOM],
            len: 0,
        }
    }

    pub(crate) fn len(&self) -> usize
        ensures { result ≡ length self.now }
    {
        self.len
    }

    pub(crate) fn push(&mut self, byte: u8)
        requires { length self.old < 64 }
        ensures { self.new ≡ self.old ++ byte ∷ [] }
    {
        self.bytes[self.len] = byte;
        self.len += 1;
    }

    pub(crate) fn push_all(&mut self, piece: &[u8])
        requires { length self.old + length piece.now ≤ 64 }
        ensures { self.new ≡ self.old ++ piece.now }
    {
        for byte in piece {
            self.push(*byte);
        }
    }

    pub(crate) fn bytes(&self) -> &[u8]
        ensures { result.now ≡ self.now }
    {
        &self.bytes[..self.len]
    }
}
