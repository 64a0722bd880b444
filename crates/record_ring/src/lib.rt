//! Records of the newest places, which threads share: what a slow writer puts in late is never taken for what a later one put there.
//!
//! # A caller
//!
//! ```rust
//! #![tactic(auto)]
//!
//! use record_ring::{Missing, Record, Ring};
//!
//! /// Whether the place was written over before it was read.
//! pub fn came_too_late(ring: &Ring, place: u64) -> bool {
//!     matches!(ring.record(place), Err(Missing::WrittenOver))
//! }
//! ```
#![tactic(auto)]

mod laws;
mod packing;
mod record;
mod ring;
mod slot;
mod word;

pub use crate::laws::laps_come_in_their_order;
pub use crate::packing::{halves, joined};
pub use crate::record::{Missing, Record};
pub use crate::ring::Ring;
pub use crate::slot::Slot;
pub use crate::word::Word;
