ghost use Rattle.std.specs.Prelude.{◌≡◌, ◌+◌, IfSome, IfNone};

use crate::refused::Refused;
use crate::who::{Who, record_of, who_in};
use record_ring::{Record, Ring};
use std::alloc::{AllocError, Global};
use std::sync::atomic::{AtomicU64, Ordering};

/// How many refusals are kept.
const KEPT_REFUSALS: u32 = 1_024;

/// A refusal's sort has who asked below this, and why it was refused above it.
const SORTS: u32 = 256;

/// The newest 1,024 changes that were refused, which threads share.
///
/// Contracts see nothing of what is in it.
#[derive(Drop)]
pub struct Refusals {
    ring: Ring,
    /// How many refusals there have been.
    count: AtomicU64,
}

impl Refusals {
    /// No refusal yet. It takes all memory that it needs.
    pub fn new(alloc: Global) -> Result<Refusals, AllocError> {
        Ok(Refusals {
            ring: Ring::new(alloc, KEPT_REFUSALS)?,
            count: AtomicU64::new(0),
        })
    }

    /// The place of the next refusal, which whoever asks puts in. Until then none behind it is told, unless it is written over.
    pub fn take_place(&self) -> u64 {
        self.count.fetch_add(1, Ordering::SeqCst)
    }

    /// Puts the refusal of a place in. It never waits: the oldest is written over.
    pub fn put(&self, place: u64, micros: u64, who: Who, reason: u8) {
        let asked = record_of(micros, who);
        let record = Record {
            sort: asked.sort % SORTS + u32::from(reason) * SORTS,
            ..asked
        };
        self.ring.put(place, record);
    }

    /// The next refusal at or after this cursor, which starts at 0 and moves past it. Where one is being taken down, those
    /// after it are told once it is.
    pub fn refused(&self, cursor: &mut u64) -> Option<Refused>
        ensures some { IfSome result (λ told. cursor.new ≡ cursor.old + told.lost + 1) }
        ensures none { IfNone result (cursor.new ≡ cursor.old) }
    {
        let end = self.count.load(Ordering::SeqCst);
        let start = end.saturating_sub(u64::from(KEPT_REFUSALS)).max(*cursor);
        let (place, kept) = self.ring.first_kept(start, end)?;
        let lost = place - *cursor;
        *cursor = place + 1;
        let asked = Record {
            sort: kept.sort % SORTS,
            ..kept
        };
        Some(Refused {
            lost,
            micros: kept.micros,
            who: who_in(asked).unwrap_or(Who::Setup),
            reason: (kept.sort / SORTS % SORTS) as u8,
        })
    }
}
