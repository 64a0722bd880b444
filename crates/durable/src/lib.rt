//! A hall whose history is kept in a file, from one run to the next.
#![tactic(auto)]

mod attendance;
mod journal;
mod looking;
mod new_file;
mod opening_fault;
mod place;

pub use crate::attendance::Attendance;
pub use crate::journal::Journal;
pub use crate::looking::entries_at;
pub use crate::opening_fault::OpeningFault;
