use desk_core::Slot;

/// What a server is told is expected of a service, behind so many entries.
#[derive(Clone, Copy)]
pub struct Expected {
    pub slot: Slot,
    /// The service has to be reported at least every so many. 0 end what was expected of it.
    pub seconds: u32,
    pub behind: u32,
}
