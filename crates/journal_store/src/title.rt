//! The first record of a preface.

ghost use Rattle.std.specs.Prelude.{◌≡◌, length};
ghost use Rattle.std.specs.Int.{w32, w64, to_le_bytes};

use std::alloc::{AllocError, Global};

/// The text in front of the numbers.
const TEXT: &[u8] = b"healthd journal 1";

/// The numbers in the first record of a preface.
#[derive(Clone, Copy)]
pub(crate) struct Title {
    pub base: u64,
    pub condensed: u32,
    pub names: u8,
}

impl Title {
    ghost use Rattle.std.specs.Prelude.{◌≡◌, ◌≤◌, ℕ, IfOk, IfSome, IfNone};
    ghost use Rattle.journal_store.specs.Preface.{title_of};

    pub(crate) fn write(&self, alloc: Global) -> Result<Vec<u8>, AllocError>
        ensures { IfOk result (λ bytes. bytes.items
            ≡ title_of self.now.base self.now.condensed self.now.names) }
    {
        let mut bytes = TEXT.to_vec(alloc)?;
        bytes.extend_from_slice(&self.base.to_le_bytes())?;
        bytes.extend_from_slice(&self.condensed.to_le_bytes())?;
        bytes.push(self.names)?;
        Ok(bytes)
    }

    /// The numbers in this record, which names at most 16.
    pub(crate) fn read(bytes: &[u8]) -> Option<Title>
        ensures some { IfSome result (λ title. bytes.now
            ≡ title_of title.base title.condensed title.names) }
        ensures few { IfSome result (λ title. title.names ≤ 16) }
        ensures none { IfNone result ((base condensed names : ℕ) → names ≤ 16
            → bytes.now ≡ title_of base condensed names → ⊥) }
    {
        if bytes.len() != 30 {
            return None;
        }
        let (text, rest) = bytes.split_at(17);
        let (base, rest) = rest.split_at(8);
        let (condensed, rest) = rest.split_at(4);
        if text != TEXT || rest[0] > 16 {
            return None;
        }
        Some(Title {
            base: u64_of(base),
            condensed: u32_of(condensed),
            names: rest[0],
        })
    }
}

fn u32_of(bytes: &[u8]) -> u32
    requires { length bytes.now ≡ 4 }
    ensures { bytes.now ≡ to_le_bytes w32 result }
{
    u32::from_le_bytes([bytes[0], bytes[1], bytes[2], bytes[3]])
}

fn u64_of(bytes: &[u8]) -> u64
    requires { length bytes.now ≡ 8 }
    ensures { bytes.now ≡ to_le_bytes w64 result }
{
    u64::from_le_bytes([
        bytes[0], bytes[1], bytes[2], bytes[3], bytes[4], bytes[5], bytes[6], bytes[7],
    ])
}
