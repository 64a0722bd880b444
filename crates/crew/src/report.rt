use crate::call_end::CallEnd;
use crate::crew_why::CrewWhy;
use desk_core::{Refusal, Reply};
use hall::Seat;
use probe_core::Probe;

/// What a crew did.
#[derive(Drop)]
pub struct Report<P: Probe> {
    /// How each call ended, by its number.
    pub calls: Vec<CallEnd>,
    /// What came of each order, by its list and its place in it.
    pub orders: Vec<Vec<Result<Reply, Refusal>>>,
    /// All seats that were given, in their order.
    pub seats: Vec<Seat<P>>,
}

/// A crew that has no report. Its calls may have been served and its orders made all the same.
#[derive(Drop)]
pub struct CrewFault<P: Probe> {
    pub why: CrewWhy,
    /// All seats that were given, in their order.
    pub seats: Vec<Seat<P>>,
}
