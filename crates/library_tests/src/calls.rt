//! Tests of the crates that answer a request, of `client`, of `control`, and of those that observe.

mod bells;
mod clients;
mod controls;
mod doors;
mod exchanges;
mod observers;
mod responses;
mod runs;
pub(crate) mod texts;
