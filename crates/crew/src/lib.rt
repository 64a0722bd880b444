//! Workers that serve calls over one hall, each with a seat of its own, while others make the changes that are ordered.
//!
//! # A caller
//!
//! ```rust
//! #![tactic(auto)]
//!
//! ghost use Rattle.std.specs.Prelude.{◌≡◌, ◌<◌, ◌^◌, IfOk, vec_len};
//! ghost use Rattle.std.specs.List.{All};
//! ghost use Rattle.hall.specs.Seats.{IsOf};
//!
//! use crew::{CrewFault, Job, OpenTurnstile, Report, serve_all};
//! use hall::{Hall, Seat};
//! use probe_core::Probe;
//! use std::alloc::Global;
//! use std::sync::Wait;
//! use std::thread::Threads;
//! use web_call::Limits;
//!
//! /// Serves calls by four workers, while nobody makes changes. Each worker has a seat.
//! pub fn serve_calls<R: Wait + Threads + Sync, P: Probe + Send, J: Job + Send>(
//!     rt: &R,
//!     alloc: Global,
//!     hall: &Hall<P>,
//!     seats: Vec<Seat<P>>,
//!     jobs: Vec<J>,
//! ) -> Result<Report<P>, CrewFault<P>>
//! where
//!     J::Input: Send,
//!     J::Output: Send,
//!     requires ours { All (IsOf hall.now) seats.items }
//!     requires count { vec_len jobs < 2 ^ 32 }
//!     ensures calls { IfOk result (λ report. vec_len report.calls ≡ vec_len jobs) }
//! {
//!     let orders = Vec::new(alloc);
//!     let limits = Limits { looks: u32::MAX };
//!     serve_all(
//!         rt,
//!         alloc,
//!         hall,
//!         seats,
//!         jobs,
//!         orders,
//!         &OpenTurnstile,
//!         4,
//!         limits,
//!     )
//! }
//! ```
#![tactic(auto)]

mod call_end;
mod command_run;
mod copying_door;
mod crew_why;
mod door;
mod gathering;
mod job;
mod laws;
mod report;
mod ring;
mod serve;
mod staff;
mod turnstile;
mod worker;

pub use call_end::CallEnd;
pub use command_run::carry_out;
pub use copying_door::CopyingDoor;
pub use crew_why::CrewWhy;
pub use door::HallDoor;
pub use gathering::gather;
pub use job::{Job, Unopened};
pub use laws::{one_gathering, watches_tell_the_story};
pub use report::{CrewFault, Report};
pub use ring::{Ring, RingBell};
pub use serve::serve_all;
pub use turnstile::{OpenTurnstile, Turnstile};
