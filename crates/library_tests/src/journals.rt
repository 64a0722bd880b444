//! Tests of the crates that keep a journal in a file: `record_log` and `journal_store`.

mod crashes;
mod histories;
mod rewritings;
mod spare;
mod stores;
