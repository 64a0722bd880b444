ghost use Rattle.std.specs.Prelude.{◌≡◌, ◌↔◌, ◌/◌, ◌^◌, Err, IfOk, IfErr, IsTrue};
ghost use Rattle.record_ring.specs.Halves.{joined};
ghost use Rattle.record_ring.specs.Laps.{IsBefore};
ghost use Rattle.record_ring.specs.declared.record.Missing.TheVariants.{Awaited, WrittenOver};

use crate::packing::{halves, joined};
use crate::record::Missing;
use std::sync::atomic::{AtomicU64, Ordering};

/// The number of laps goes round at 2^32. Of two laps the later one is that which is fewer than these ahead of the other.
const HALF_ROUND: u32 = 0x8000_0000;

/// A part of a record, which threads share. It lies beside the lap that it was put in, and gives way to later laps alone.
///
/// Contracts see nothing of what is in it.
#[derive(Drop)]
pub struct Word {
    word: AtomicU64,
}

/// Whether a lap comes before another one.
fn is_before(lap: u32, other: u32) -> bool
    ensures { IsTrue result ↔ IsBefore lap other }
{
    let ahead = other.wrapping_sub(lap);
    ahead != 0 && ahead < HALF_ROUND
}

/// The part of a word that was put in this lap.
fn part_at(word: u64, lap: u32) -> Result<u32, Missing>
    ensures ok { IfOk result (λ part. word ≡ joined lap part) }
    ensures err { IfErr result (λ missing. ¬ (word / 2 ^ 32 ≡ lap)) }
    ensures awaited { result ≡ Err Awaited → IsBefore (word / 2 ^ 32) lap }
    ensures written_over { result ≡ Err WrittenOver → ¬ (IsBefore (word / 2 ^ 32) lap) }
{
    let (found, part) = halves(word);
    if found == lap {
        return Ok(part);
    }
    Err(if is_before(found, lap) {
        Missing::Awaited
    } else {
        Missing::WrittenOver
    })
}

impl Word {
    /// Nothing was put here yet: it has 0 in the lap before the first one, 2^32 − 1.
    pub fn new() -> Word {
        Word {
            word: AtomicU64::new(joined(u32::MAX, 0)),
        }
    }

    /// Puts a part here in this lap, unless one of a later lap, or of the same, is here.
    pub fn put(&self, lap: u32, part: u32) {
        let new = joined(lap, part);
        let _ = self
            .word
            .fetch_update(Ordering::SeqCst, Ordering::SeqCst, move |old| {
                if is_before(halves(old).0, lap) {
                    Some(new)
                } else {
                    None
                }
            });
    }

    /// The part that was put here in this lap.
    pub fn part(&self, lap: u32) -> Result<u32, Missing> {
        part_at(self.word.load(Ordering::SeqCst), lap)
    }
}
