//! A server that runs until it is told to end: event loops, each with a seat of a hall that a script has set up.
//!
//! # A caller
//!
//! ```rust
//! #![tactic(auto)]
//!
//! ghost use Rattle.std.specs.Prelude.{◌≡◌, IfOk, length};
//! ghost use Rattle.std.specs.List.{sum_by};
//! ghost use Rattle.hall.specs.Seats.{own_calls};
//!
//! use desk_core::Keep;
//! use live_run::{Counters, Ran, LoopsFault, SessionPlaces, run_live};
//! use live_server::{EventServer, News};
//! use probe_core::{Maker, Probe};
//! use server::SetUpHall;
//! use std::alloc::Global;
//! use std::sync::{Arc, Wait};
//! use std::thread::Threads;
//! use std::time::Clock;
//!
//! /// Serves by loops alone, with no places for sessions. So the journal has the changes of the setup and no others.
//! pub fn run_loops<R, P: Probe + Send, K: Keep + Send, M>(
//!     rt: &R,
//!     alloc: Global,
//!     made: SetUpHall<P, K>,
//!     servers: Vec<EventServer>,
//!     maker: &M,
//!     counters: &Arc<Counters>,
//!     news: &News,
//! ) -> Result<Ran<P, K>, LoopsFault>
//! where
//!     R: Wait + Threads + Clock + Sync,
//!     M: Maker<P> + Sync,
//!     ensures entries { IfOk result (λ ran. length ran.desk.journal ≡ sum_by (λ seat. length (own_calls seat)) made.seats) }
//! {
//!     let places = SessionPlaces {
//!         control: None,
//!         report: None,
//!         watchdog: None,
//!     };
//!     run_live(rt, alloc, made, servers, places, maker, counters, news)
//! }
//! ```
#![tactic(auto)]

mod beside;
mod counters;
mod gauges;
mod laws;
mod loops_fault;
mod meter;
mod ran;
mod reception;
mod refused_line;
mod reported;
mod seated_loop;
mod seating;
mod sitting;
mod teller;
mod watchdog_loop;
mod watched;
mod whole_run;

pub use counters::Counters;
pub use gauges::Gauges;
pub use laws::results_in_place;
pub use loops_fault::LoopsFault;
pub use meter::Meter;
pub use ran::{Ran, SessionPlaces};
pub use reception::Reception;
pub use refused_line::{RefusedLine, first_refused};
pub use seated_loop::{SeatedLoop, serve_loops};
pub use teller::Teller;
pub use watchdog_loop::WatchdogLoop;
pub use whole_run::run_live;
