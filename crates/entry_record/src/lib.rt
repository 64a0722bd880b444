//! What a journal's file keeps of an entry, as bytes: each entry has one form, and each form is one entry's.
//!
//! # A caller
//!
//! ```rust
//! #![tactic(auto)]
//!
//! ghost use Rattle.std.specs.Prelude.{◌≡◌, ◌∷◌, ◌++◌, [], length, OnOk};
//! ghost use Rattle.entry_record.specs.Format.{bytes_of};
//!
//! use entry_record::Stored;
//! use std::alloc::AllocError;
//!
//! /// Appends an entry to what goes into a file: how many bytes it has, and these.
//! pub fn append(file: &mut Vec<u8>, stored: &Stored) -> Result<(), AllocError>
//!     ensures { OnOk result (file.new.items
//!         ≡ file.old.items ++ length (bytes_of stored.now) ∷ [] ++ bytes_of stored.now) }
//! {
//!     let written = stored.write();
//!     let bytes = written.as_bytes();
//!     file.push(bytes.len() as u8)?;
//!     file.extend_from_slice(bytes)
//! }
//! ```
#![tactic(auto)]

mod laws;
mod reading;
mod stored;
mod writing;
mod written;

pub use crate::laws::read_gives_back;
pub use crate::stored::Stored;
pub use crate::written::Written;
