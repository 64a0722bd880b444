//! A watchdog over services that are expected to be heard: silence is a failure, and a timer says when.
//!
//! # A caller
//!
//! ```rust
//! #![tactic(auto)]
//!
//! ghost use Rattle.std.specs.Prelude.{◌≡◌, IfOk, IfErr};
//! ghost use Rattle.hall.specs.Seats.{IsOf};
//! ghost use Rattle.watchdog.specs.Watching.{HasHadRound, HasMissedRound, guards_of};
//!
//! use desk_core::Keep;
//! use hall::{Hall, Seat};
//! use probe_core::Probe;
//! use std::io;
//! use std::sync::Wait;
//! use std::time::Clock;
//! use watchdog::{Round, Watchdog};
//!
//! /// A round of a thread's loop.
//! pub fn watch<R: Wait + Clock, P: Probe, K: Keep>(
//!     rt: &R,
//!     hall: &Hall<P, K>,
//!     watchdog: &mut Watchdog,
//!     seat: &mut Seat<P, K>,
//! ) -> io::Result<Round>
//!     requires ours { IsOf hall.now seat.old }
//!     ensures had { IfOk result (λ round. HasHadRound K.kept round.at (guards_of watchdog.old) seat.old
//!         (guards_of watchdog.new) seat.new) }
//!     ensures missed { IfErr result (λ error. HasMissedRound (guards_of watchdog.old) seat.old
//!         (guards_of watchdog.new) seat.new) }
//! {
//!     watchdog.round(rt, rt, hall, seat)
//! }
//! ```
#![tactic(auto)]

mod expectations;
mod falling;
mod found;
mod guard;
mod laws;
mod met;
mod scribe;
mod steps;
mod timer;
mod watchdog;
mod wish;

pub use expectations::Expectations;
pub use falling::Fall;
pub use found::Found;
pub use guard::Guard;
pub use laws::{fails_are_due, told_once_and_when_due, watchdogs_make_fails_alone};
pub use met::Met;
pub use timer::Timer;
pub use watchdog::{Round, Watchdog};
pub use wish::{MAX_SECONDS, Wish};
