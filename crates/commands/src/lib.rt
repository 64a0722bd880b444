//! The commands of healthd: what each reads of its words, what it does, and what it prints.
//!
//! # A caller
//!
//! ```rust
//! #![tactic(auto)]
//!
//! ghost use Rattle.std.specs.Prelude.{IfOk};
//! ghost use Rattle.commands.specs.Replay.{Replays};
//!
//! use commands::fault::Fault;
//! use commands::replay::replay;
//! use probe_core::{Maker, Probe};
//! use std::alloc::Global;
//!
//! /// What a script comes to.
//! pub fn output_of<P: Probe, M: Maker<P>>(alloc: Global, maker: &M, script: &[u8]) -> Result<Vec<u8>, Fault>
//!     ensures { IfOk result (λ output. Replays script.now output.items) }
//! {
//!     replay(alloc, maker, script)
//! }
//! ```
#![tactic(auto)]

pub mod advice;
pub mod answer;
pub mod ask;
pub mod ask_failure;
pub mod asking_place;
pub mod body;
pub mod command;
pub mod deadline;
pub mod expect;
pub mod fault;
mod help_texts;
pub mod history;
pub mod input;
mod no_place;
pub mod observe;
pub mod observe_options;
pub mod options;
pub mod replay;
pub mod safe_lines;
pub mod serve;
pub mod service;
pub mod show_failure;
pub mod show_journal;
pub mod status;
pub mod status_printer;
pub mod stop;
pub mod tell;
pub mod tell_failure;
pub mod timed_control;
