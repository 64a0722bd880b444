//! The registry shared by threads: one history for all of them, and a Check that is one load.
//!
//! # A caller
//!
//! ```rust
//! #![tactic(auto)]
//!
//! ghost use Rattle.std.specs.Prelude.{◌≡◌, Some, IsTrue};
//! ghost use Rattle.desk_core.specs.Status.{status_map};
//! ghost use Rattle.hall.specs.Seats.{GoesOn, IsOf};
//! ghost use Rattle.health_wire.specs.declared.serving.Serving.TheVariants.{Serving as IsServing};
//!
//! use desk_core::Keep;
//! use hall::{Hall, Seat};
//! use health_wire::Serving;
//! use probe_core::Probe;
//!
//! /// Whether a service is serving by now. The seat sees all that it saw before.
//! pub fn is_serving<P: Probe, K: Keep>(hall: &Hall<P, K>, seat: &mut Seat<P, K>, name: &str) -> bool
//!     requires seat { IsOf hall.now seat.old }
//!     ensures serving { IsTrue result
//!         → status_map hall.now.names seat.new.seen name.now ≡ Some IsServing }
//!     ensures goes_on { GoesOn seat.old seat.new }
//! {
//!     matches!(hall.check(seat, name).status, Some(Serving::Serving))
//! }
//! ```
#![tactic(auto)]

mod answer;
mod changes;
mod closed;
mod fault;
mod gate;
mod hall;
mod looking;
mod note;
mod seat;
mod silence;
mod steps;
mod storing;
mod view;

pub use answer::Answer;
pub use closed::{Closed, Unclosed};
pub use fault::HallFault;
pub use hall::Hall;
pub use note::Note;
pub use seat::Seat;
