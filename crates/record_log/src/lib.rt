//! A log of entries in one file: each is on the disk before it is acknowledged, a batch of them
//! costs two syncs, and a crash leaves all of a batch or nothing of it.
//!
//! # A caller
//!
//! ```rust
//! #![tactic(auto)]
//!
//! ghost use Rattle.std.specs.Prelude.{◌<◌, ◌++◌, List, ℕ, All, length, IfOk};
//! ghost use Rattle.record_log.specs.Log.{StandsFor, IsReady, texts};
//!
//! use record_log::{Device, OpenError, RecordLog};
//! use std::alloc::Global;
//!
//! /// Opens a log and adds a first batch. The log that it returns has both.
//! pub fn go_on<D: Device>(
//!     alloc: Global,
//!     device: D,
//!     batch: &[Vec<u8>],
//! ) -> Result<RecordLog<D>, OpenError>
//!     requires some { 0 < length batch.now }
//!     requires short { All (λ entry. length entry.items < 256) batch.now }
//!     ensures { IfOk result (λ log. (found : List (List ℕ)) × StandsFor (D.contents device) found
//!         × IsReady D.contents D.may_leave log (found ++ texts batch.now)) }
//! {
//!     let mut log = RecordLog::new(device);
//!     log.open(alloc)?;
//!     log.append(alloc, batch)?;
//!     Ok(log)
//! }
//! ```
#![tactic(auto)]

mod beginning;
mod block;
mod checksum;
mod device;
mod file_device;
mod file_error;
mod held_file;
mod laws;
mod memory;
mod not_replaced;
mod open_error;
mod past;
mod reading;
mod record_log;
mod rewriting;
mod was;
mod writing;

pub use crate::beginning::begins;
pub use crate::block::blocks_of;
pub use crate::checksum::crc32;
pub use crate::device::{Device, DeviceError};
pub use crate::file_device::FileDevice;
pub use crate::file_error::FileError;
pub use crate::held_file::HeldFile;
pub use crate::laws::one_meaning;
pub use crate::memory::Memory;
pub use crate::not_replaced::NotReplaced;
pub use crate::open_error::OpenError;
pub use crate::reading::{ReadError, read_entries};
pub use crate::record_log::RecordLog;
pub use crate::rewriting::write_text_anew;
