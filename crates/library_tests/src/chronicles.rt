//! Tests of `chronicle` and of `record_ring`.

mod notes;
mod numbers;
mod refusals;
mod rings;
mod slots;
mod times;
mod vitals;
