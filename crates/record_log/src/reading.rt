ghost use Rattle.std.specs.Prelude.{◌≡◌, ◌∷◌, ◌++◌, [], ℕ, length, IfOk, OnOk, IsErrOf};
ghost use Rattle.record_log.specs.Log.{StandsFor, IsDamagedAt, blocks, texts};
ghost use Rattle.record_log.specs.declared.reading.ReadError.TheVariants.{Memory, Damaged};

use crate::block::{OPEN, first_block};
use std::alloc::{AllocError, AllocFailed, Global};
use std::fmt;

#[derive(Clone, Copy, Debug, PartialEq, Eq)]
pub enum ReadError {
    Memory,
    /// From this byte on, no crash leaves what is there.
    Damaged(usize),
}

impl From<AllocError> for ReadError {
    ghost from_gives = { λ _ e. e ≡ Memory };

    fn from(_: AllocError) -> Self {
        ReadError::Memory
    }
}

impl<T: Drop> From<AllocFailed<T>> for ReadError {
    ghost from_gives = { λ _ e. e ≡ Memory };

    fn from(_: AllocFailed<T>) -> Self {
        ReadError::Memory
    }
}

impl fmt::Display for ReadError {
    fn fmt<W: fmt::Write>(&self, f: &mut fmt::Formatter<W>) -> fmt::Result {
        match self {
            ReadError::Memory => f.write_str("out of memory"),
            ReadError::Damaged(at) => write!(f, "damaged at byte {at}"),
        }
    }
}

/// The entries of a file, and the place of the gate behind them.
pub fn read_entries(alloc: Global, bytes: &[u8]) -> Result<(Vec<Vec<u8>>, usize), ReadError>
    ensures stands { IfOk result (λ found. StandsFor bytes.now (texts found.0.items)) }
    ensures end { IfOk result (λ found. found.1 ≡ length (blocks (texts found.0.items))) }
    ensures damaged { (at : ℕ) → IsErrOf result (Damaged at) → IsDamagedAt bytes.now at }
{
    let mut found = Vec::new(alloc);
    let mut rest = bytes;
    while let Some((entry, behind)) = first_block(rest) {
        keep(alloc, &mut found, entry)?;
        rest = behind;
    }
    let end = bytes.len() - rest.len();
    if bytes.len() < 2 {
        return Ok((found, end));
    }
    if rest.is_empty() || rest[0] == OPEN {
        return Err(ReadError::Damaged(end));
    }
    Ok((found, end))
}

/// Adds a copy of these bytes.
fn keep(alloc: Global, found: &mut Vec<Vec<u8>>, entry: &[u8]) -> Result<(), AllocError>
    ensures { OnOk result (texts found.new.items ≡ texts found.old.items ++ entry.now ∷ []) }
{
    let copy = entry.to_vec(alloc)?;
    found.push(copy)?;
    Ok(())
}
