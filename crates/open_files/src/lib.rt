//! How many files a process may have open, and how many connections of a server fit.
//!
//! # A caller
//!
//! ```rust
//! #![tactic(auto)]
//!
//! ghost use Rattle.std.specs.Prelude.{◌≡◌, ◌-◌, min};
//! ghost use Rattle.open_files.specs.Bound.{most_of};
//!
//! use open_files::{OpenFiles, connections_within};
//!
//! /// Files that are open beside the connections.
//! const RESERVED: u32 = 24;
//!
//! /// As many of the wanted connections as fit.
//! pub fn bound(limit: OpenFiles, wanted: u32) -> u32
//!     ensures { result ≡ min wanted (most_of limit - RESERVED) }
//! {
//!     connections_within(limit.count(), wanted, RESERVED).unwrap_or(0)
//! }
//! ```
#![tactic(auto)]

mod bound;
mod laws;
mod limits;

pub use crate::bound::connections_within;
pub use crate::laws::one_limit;
pub use crate::limits::{OpenFiles, open_files, open_files_in};
