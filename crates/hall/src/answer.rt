use health_wire::Serving;

/// What a Check found: the status of a name, and how many entries the journal has where it is so.
#[derive(Clone, Copy, PartialEq, Eq)]
pub struct Answer {
    /// How many entries the history has that the status is taken from.
    pub at: u32,
    /// None for a name that is not in the catalogue or not registered.
    pub status: Option<Serving>,
}
