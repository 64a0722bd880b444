/// What a slot of a ring keeps.
#[derive(Clone, Copy, Debug, PartialEq, Eq)]
pub struct Record {
    /// A time, in microseconds.
    pub micros: u64,
    /// A number, or 0.
    pub session: u32,
    /// What sort of thing it is, which the owner of the ring reads.
    pub sort: u32,
}

/// Why a slot of a ring has nothing of a place.
#[derive(Clone, Copy, Debug, PartialEq, Eq)]
pub enum Missing {
    /// Nothing was put there yet, or not all of it.
    Awaited,
    /// A later place has the slot.
    WrittenOver,
}
