ghost use Rattle.std.specs.Prelude.{◌≡◌, ◌++◌, List, ℕ, IsTrue};
ghost use Rattle.record_log.specs.Log.{blocks, texts};

use crate::block::first_block;

/// Whether these bytes are the blocks of the first of these entries.
pub fn begins(entries: &[Vec<u8>], bytes: &[u8]) -> bool
    ensures { IsTrue result → (front back : List (List ℕ))
        × (texts entries.now ≡ front ++ back) × (bytes.now ≡ blocks front) }
{
    let mut rest = bytes;
    for entry in entries {
        match first_block(rest) {
            Some((found, behind)) if found == entry.as_slice() => rest = behind,
            _ => return rest.is_empty(),
        }
    }
    rest.is_empty()
}
