//! What healthd writes to standard error while it runs: the texts of its lines, how many of them it may write, and a writer
//! that never waits for whoever reads them.
//!
//! # A caller
//!
//! ```rust
//! #![tactic(auto)]
//!
//! use log_lines::{Allowance, Event, Line, Writer};
//! use std::alloc::{AllocError, Global};
//!
//! /// Takes a line of this time, if one may be written, and writes what there is room for. It tells whether to call again once
//! /// there is more room.
//! pub fn tell(
//!     alloc: Global,
//!     writer: &mut Writer,
//!     allowance: &mut Allowance,
//!     now_millis: u64,
//!     time: &str,
//!     event: Event<'_>,
//! ) -> Result<bool, AllocError> {
//!     if let Some(count) = allowance.left_out(now_millis) {
//!         let event = Event::LeftOut(count);
//!         writer.push(Line { time, event }.to_string(alloc)?.as_bytes());
//!     }
//!     if allowance.take(now_millis) {
//!         writer.push(Line { time, event }.to_string(alloc)?.as_bytes());
//!     }
//!     Ok(writer.write_now())
//! }
//! ```
#![tactic(auto)]

mod allowance;
mod event;
mod journal_stream;
mod laws;
mod limit;
mod line;
mod met;
mod minutely;
mod outlet;
mod plain;
mod second;
mod status;
mod waiting;
mod who;
mod writer;

pub use crate::allowance::Allowance;
pub use crate::event::Event;
pub use crate::laws::at_most_so_many_and_each_counted;
pub use crate::limit::Limit;
pub use crate::line::{JournalLine, Line};
pub use crate::met::Met;
pub use crate::minutely::Minutely;
pub use crate::outlet::Outlet;
pub use crate::status::Status;
pub use crate::waiting::Waiting;
pub use crate::who::Who;
pub use crate::writer::Writer;
