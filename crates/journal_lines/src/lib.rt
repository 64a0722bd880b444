//! What a journal's file has, as lines of text: an entry a line.
#![tactic(auto)]

mod file;
mod journal;
mod line;
mod names;
mod place;
mod printing;
mod printing_fault;
mod reading;
mod unreadable;

pub use crate::file::print_journal;
pub use crate::printing::print_entries;
pub use crate::printing_fault::PrintingFault;
