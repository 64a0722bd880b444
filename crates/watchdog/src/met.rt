use std::time::Instant;

/// What the timer of one service meets, with the reading of the clock.
#[derive(Clone, Copy)]
pub enum Met {
    /// From now on a report is expected at least every so many seconds; 0 ends that.
    Expected(Instant, u32),
    /// A report came, or something else that counts as one.
    Heard(Instant),
    /// No report is expected any more.
    Ended,
    /// Somebody asked whether the service is to be failed.
    Looked(Instant),
    /// What a look led to was refused, and is tried again a second later.
    Refused(Instant),
}
