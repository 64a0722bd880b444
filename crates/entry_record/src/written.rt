use std::marker::Model;

/// The most bytes that an entry takes.
const MOST: usize = 28;

/// The bytes of one entry.
#[derive(Drop)]
pub struct Written {
    bytes: [u8; MOST],
    count: usize,
}

impl Model for Written {
    ghost use Rattle.std.specs.Prelude.{◌≤◌, ℕ, List, take};

    ghost Value = { List ℕ };

    ghost view = { λ written. take written.count written.bytes };

    ghost invariant = { λ written. written.count ≤ 28 };
}

impl Written {
    ghost use Rattle.std.specs.Prelude.{◌≡◌, ◌+◌, ◌^◌, ◌<◌, ◌≤◌, ◌∷◌, ◌++◌, [], length};
    ghost use Rattle.std.specs.Int.{w16, w32, w64, to_le_bytes};

    pub(crate) fn new() -> Written
        ensures { result ≡ [] }
    {
        Written {
            bytes: [0; MOST],
            count: 0,
        }
    }

    /// The bytes, to be written to the file.
    pub fn as_bytes(&self) -> &[u8]
        ensures bytes { result.now ≡ self.now }
        ensures few { length self.now ≤ 28 }
    {
        &self.bytes[..self.count]
    }

    pub(crate) fn put(&mut self, byte: u8)
        requires { length self.old < 28 }
        ensures { self.new ≡ self.old ++ byte ∷ [] }
    {
        self.bytes[self.count] = byte;
        self.count += 1;
    }

    fn put_all(&mut self, bytes: &[u8])
        requires { length self.old + length bytes.now ≤ 28 }
        ensures { self.new ≡ self.old ++ bytes.now }
    {
        for byte in bytes {
            self.put(*byte);
        }
    }

    pub(crate) fn put_u16(&mut self, number: u16)
        requires { length self.old ≤ 26 }
        ensures bytes { self.new ≡ self.old ++ to_le_bytes w16 number }
        ensures range { number < 2 ^ 16 }
    {
        self.put_all(&number.to_le_bytes());
    }

    pub(crate) fn put_u32(&mut self, number: u32)
        requires { length self.old ≤ 24 }
        ensures bytes { self.new ≡ self.old ++ to_le_bytes w32 number }
        ensures range { number < 2 ^ 32 }
    {
        self.put_all(&number.to_le_bytes());
    }

    pub(crate) fn put_u64(&mut self, number: u64)
        requires { length self.old ≤ 20 }
        ensures bytes { self.new ≡ self.old ++ to_le_bytes w64 number }
        ensures range { number < 2 ^ 64 }
    {
        self.put_all(&number.to_le_bytes());
    }
}
