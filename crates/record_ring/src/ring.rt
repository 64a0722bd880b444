ghost use Rattle.std.specs.Prelude.{◌≡◌, ◌↔◌, ◌<◌, ◌≤◌, IsSome, IfSome};
ghost use Rattle.record_ring.specs.Spot.{spot_of};

use crate::record::{Missing, Record};
use crate::slot::Slot;
use std::alloc::{AllocError, Global};

/// The slot of a place among so many, and the lap in which it has it.
fn spot_of(count: u64, place: u64) -> Option<(u64, u32)>
    ensures some { IsSome result ↔ (0 < count) }
    ensures spot { IfSome result (λ spot. spot ≡ spot_of count place) }
{
    let at = place.checked_rem(count)?;
    let lap = place.checked_div(count)? % 0x1_0000_0000;
    Some((at, lap as u32))
}

/// The records of the newest places, one in each slot, which threads share. Places are put in about in their order, from 0 on: those that
/// meet in a slot are less than 2^31 laps apart.
///
/// Contracts see nothing of it.
#[derive(Drop)]
pub struct Ring {
    slots: Vec<Slot>,
}

impl Ring {
    /// A ring of so many slots, in none of which anything was put.
    pub fn new(alloc: Global, count: u32) -> Result<Ring, AllocError> {
        let mut slots = Vec::with_capacity(alloc, count as usize)?;
        for _ in 0..count {
            slots.push(Slot::new())?;
        }
        Ok(Ring { slots })
    }

    /// The slot of a place, and the lap in which it has it.
    fn slot(&self, place: u64) -> Option<(&Slot, u32)> {
        let (at, lap) = spot_of(self.slots.len() as u64, place)?;
        Some((self.slots.get(at as usize)?, lap))
    }

    /// Puts the record of a place in, unless a later place has its slot. Each place is put in once, by any thread.
    pub fn put(&self, place: u64, record: Record) {
        if let Some((slot, lap)) = self.slot(place) {
            slot.put(lap, record);
        }
    }

    /// The record of a place.
    pub fn record(&self, place: u64) -> Result<Record, Missing> {
        match self.slot(place) {
            Some((slot, lap)) => slot.record(lap),
            None => Err(Missing::Awaited),
        }
    }

    /// The first place of a range that was not written over, with its record; nothing where that is awaited.
    pub fn first_kept(&self, start: u64, end: u64) -> Option<(u64, Record)>
        ensures { IfSome result (λ found. (start ≤ found.0) × (found.0 < end)) }
    {
        for place in start..end {
            match self.record(place) {
                Ok(kept) => return Some((place, kept)),
                Err(Missing::Awaited) => return None,
                Err(Missing::WrittenOver) => {}
            }
        }
        None
    }
}
