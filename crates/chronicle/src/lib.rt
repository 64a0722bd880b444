//! When each entry of a journal was made and who asked for it, and which changes were refused: rings beside the journal, which
//! threads share.
//!
//! # A caller
//!
//! ```rust
//! #![tactic(auto)]
//!
//! use chronicle::{Chronicle, Note, Who, wall_micros};
//! use std::time::Clock;
//!
//! /// Takes down that a session's change is the entry at this place, and tells what is known of the entry before it.
//! pub fn taken_down<C: Clock>(clock: &C, chronicle: &Chronicle, place: u32, session: u32) -> Option<Note> {
//!     chronicle.note(place, wall_micros(clock), Who::Session(session));
//!     chronicle.noted(place.checked_sub(1)?)
//! }
//! ```
#![tactic(auto)]

mod chronicle;
mod laws;
mod newest;
mod refusals;
mod refused;
mod session_numbers;
mod sitting;
mod store_fault;
mod time;
mod vitals;
mod who;

pub use crate::chronicle::{Chronicle, Note};
pub use crate::laws::spots_tell_places_apart;
pub use crate::newest::Newest;
pub use crate::refusals::Refusals;
pub use crate::refused::Refused;
pub use crate::session_numbers::SessionNumbers;
pub use crate::store_fault::StoreFault;
pub use crate::time::{TimeText, time_text, wall_micros};
pub use crate::vitals::Vitals;
pub use crate::who::Who;
