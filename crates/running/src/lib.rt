//! The command `run`: a server that a script sets up, and that goes on until it is told to stop.
//!
//! # A caller
//!
//! ```rust
//! #![tactic(auto)]
//!
//! ghost use Rattle.std.specs.Prelude.{IfErr, IfOk};
//! ghost use Rattle.running.specs.Run.{EndsSetUp, IsSetUpBy};
//!
//! use desk_core::Keep;
//! use probe_core::{Maker, Probe};
//! use running::run::set_up;
//! use running::run_failure::RunFailure;
//! use server::SetUpHall;
//! use std::alloc::Global;
//! use std::sync::Wait;
//!
//! /// The hall of a server with one loop and a seat for what the script does.
//! pub fn small_hall<'a, R: Wait, P: Probe, K: Keep, M: Maker<P>>(
//!     rt: &R,
//!     alloc: Global,
//!     maker: &M,
//!     script: &[u8],
//! ) -> Result<SetUpHall<P, K>, RunFailure<'a>>
//!     ensures ok { IfOk result (IsSetUpBy script.now 2) }
//!     ensures failure { IfErr result (EndsSetUp script.now) }
//! {
//!     set_up(rt, alloc, maker, script, 2)
//! }
//! ```
#![tactic(auto)]

pub mod begun;
pub mod bounds;
pub mod byte_order_mark;
pub mod check;
pub mod expected;
pub mod files;
pub mod journal_cause;
pub mod journaled;
pub mod listening;
pub mod listening_lines;
pub mod loops;
pub mod registered;
pub mod run;
pub mod run_failure;
pub mod run_options;
pub mod signalled;
pub mod supervisor;
pub mod tallies;
pub mod terminal;
