use crate::slot::Slot;

/// An entry that a reason names.
#[derive(Clone, Copy)]
pub struct Cause {
    /// Its place in the journal.
    pub place: u32,
    /// Whether it is still kept.
    pub is_kept: bool,
}

/// Why a service has the status that it has.
#[derive(Clone, Copy)]
pub enum Reason {
    /// It is serving.
    Serving,
    /// The server was shut down.
    ShutDown(Cause),
    /// It depends on a service that is not serving.
    DependsOn(Slot),
    /// It heard so many fails in a row, and since then too few passes in a row to be up again.
    Failed {
        fails: u32,
        cause: Cause,
        passes: u32,
        rise: u32,
    },
    /// It was set down.
    SetDown(Cause),
    /// It starts unknown, and has heard nothing.
    Unheard(Cause),
    /// It was retired.
    Retired(Cause),
    /// It was never registered.
    NeverRegistered,
}
