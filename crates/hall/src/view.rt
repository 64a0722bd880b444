use desk_core::Entry;
use std::collections::LinkedList;

/// A seat's number, and the history that it has seen. This, `GateStage` and `View` exist in proofs alone: no value of them is made, so
/// their lists are histories, the newest entry first, and their numbers have no bound.
pub struct Held {
    pub number: u64,
    pub seen: LinkedList<Entry>,
}

/// Where a seat stands at the gate.
pub enum GateStage {
    /// It asks for nothing.
    Idle,
    /// It waits for its ticket to be served.
    Queued(u64),
    /// Its ticket is served, and it has the desk with this history.
    Served(u64, LinkedList<Entry>),
}

/// What a thread knows of the hall.
pub struct View {
    /// The seats that it stands for: one, none for a note, and several while a hall is closed.
    pub seats: LinkedList<Held>,
    /// What a note was told.
    pub told: LinkedList<Entry>,
    pub stage: GateStage,
    /// It deals out the numbers of seats, of which so many are dealt.
    pub deals: bool,
    pub dealt: u64,
    /// How many entries the journal may have.
    pub most: u64,
}

/// What a hall is told once, when it is made.
#[derive(Clone, Copy)]
pub struct HallLimits {
    pub most: u32,
    pub seats: u16,
}
