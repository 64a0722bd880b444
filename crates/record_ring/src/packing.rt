ghost use Rattle.std.specs.Prelude.{◌≡◌};
ghost use Rattle.record_ring.specs.Halves.{joined};

/// Two halves as one word, the upper one first.
pub fn joined(upper: u32, lower: u32) -> u64
    ensures { result ≡ joined upper lower }
{
    u64::from(upper) * 0x1_0000_0000 + u64::from(lower)
}

/// The halves of a word, the upper one first.
pub fn halves(word: u64) -> (u32, u32)
    ensures { joined result.0 result.1 ≡ word }
{
    ((word >> 32) as u32, (word % 0x1_0000_0000) as u32)
}
