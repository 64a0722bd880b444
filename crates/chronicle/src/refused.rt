use crate::who::Who;

/// That a change was refused.
#[derive(Clone, Copy, Debug, PartialEq, Eq)]
pub struct Refused {
    /// How many refusals before it were written over before they could be told.
    pub lost: u64,
    /// When that was, in microseconds since 1970-01-01T00:00:00Z.
    pub micros: u64,
    pub who: Who,
    /// Why, as whoever took the refusal down numbers its reasons.
    pub reason: u8,
}
