//! The log of a server: what comes about in its registry, told in lines that somebody reads while it runs.
//!
//! # A caller
//!
//! ```rust
//! #![tactic(auto)]
//!
//! ghost use Rattle.hall.specs.Looking.{HasLooked};
//! ghost use Rattle.hall.specs.Seats.{IsOf};
//!
//! use desk_core::Keep;
//! use diary::{Diary, Held};
//! use hall::{Hall, Seat};
//! use probe_core::Probe;
//! use std::sync::Wait;
//! use std::time::Clock;
//!
//! /// Tells what has come about, and whether there is more to tell at once.
//! pub fn tell<R: Wait + Clock, P: Probe, K: Keep>(
//!     rt: &R,
//!     diary: &mut Diary,
//!     hall: &Hall<P, K>,
//!     seat: &mut Seat<P, K>,
//!     held: Held,
//! ) -> bool
//!     requires ours { IsOf hall.now seat.old }
//!     ensures looked { HasLooked seat.old seat.new }
//! {
//!     diary.follow(rt, rt, hall, seat, held);
//!     diary.has_more()
//! }
//! ```
#![tactic(auto)]

mod batch;
mod bounds;
mod diary;
mod ending;
mod held;
mod moment;
mod page;
mod pen;
mod shown;
mod storage;
mod story;
mod words;

pub use crate::diary::{Diary, Setup};
pub use crate::ending::Ending;
pub use crate::held::Held;
