//! A store that keeps the journal of a desk in a file, the desk that a file's entries make, and the shortest history that comes to the same.
#![tactic(auto)]

mod anew;
mod condensing;
mod digest;
mod file_medium;
mod journal_store;
mod known;
mod lawful;
mod laws;
mod medium;
mod next;
mod preface;
mod preface_fault;
mod reading;
mod record_fault;
mod records;
mod restore_fault;
mod restoring;
mod retry;
mod short;
mod shortening;
mod text;
mod title;
mod told;
mod witness;

pub use crate::digest::Digest;
pub use crate::file_medium::{FileMedium, FileStore};
pub use crate::journal_store::JournalStore;
pub use crate::laws::{
    alike_at_length, alike_for_good, alike_to_one_another, one_preface, read_again, standing,
};
pub use crate::medium::Medium;
pub use crate::preface::{Preface, read_preface};
pub use crate::preface_fault::PrefaceFault;
pub use crate::reading::{read_found, read_records};
pub use crate::record_fault::RecordFault;
pub use crate::records::batch_of;
pub use crate::restore_fault::RestoreFault;
pub use crate::restoring::restore;
pub use crate::witness::Witness;
