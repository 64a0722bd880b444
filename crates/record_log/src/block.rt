//! A block is an open gate, a length, the bytes of an entry and their checksum.

ghost use Rattle.std.specs.Prelude.{◌≡◌, ◌<◌, ◌++◌, [], ◌∷◌, List, ℕ, All, length, IfOk, IfSome, IfNone};
ghost use Rattle.record_log.specs.Log.{block, blocks, texts};

use crate::checksum::crc32;
use std::alloc::{AllocError, Global};

pub(crate) const OPEN: u8 = 1;

pub(crate) const CLOSED: u8 = 0;

const CHECKSUM_LEN: usize = 4;

/// The blocks of these entries, and a closed gate.
pub fn blocks_of(alloc: Global, batch: &[Vec<u8>]) -> Result<Vec<u8>, AllocError>
    requires short { All (λ entry. length entry.items < 256) batch.now }
    ensures { IfOk result (λ text. text.items ≡ blocks (texts batch.now) ++ 0 ∷ []) }
{
    let mut text = Vec::new(alloc);
    for entry in batch {
        text.push(OPEN)?;
        text.push(entry.len() as u8)?;
        text.extend_from_slice(entry)?;
        text.extend_from_slice(&crc32(entry).to_be_bytes())?;
    }
    text.push(CLOSED)?;
    Ok(text)
}

/// The entry of the block at the front and what is behind that block, if a block stands there.
pub(crate) fn first_block(bytes: &[u8]) -> Option<(&[u8], &[u8])>
    ensures some { IfSome result (λ found. bytes.now ≡ block found.0.now ++ found.1.now) }
    ensures none { IfNone result ((entry more : List ℕ) → bytes.now ≡ block entry ++ more → ⊥) }
{
    if bytes.len() < 2 || bytes[0] != OPEN {
        return None;
    }
    let len = usize::from(bytes[1]);
    let behind = &bytes[2..];
    if behind.len() < len + CHECKSUM_LEN {
        return None;
    }
    let (entry, behind) = behind.split_at(len);
    let (sum, behind) = behind.split_at(CHECKSUM_LEN);
    if sum == crc32(entry).to_be_bytes().as_slice() {
        Some((entry, behind))
    } else {
        None
    }
}
