use crate::rights::Rights;

/// What holds for the sessions of a place.
#[derive(Clone, Copy)]
pub struct Terms {
    /// What they may ask for.
    pub rights: Rights,
    /// The most entries of the history.
    pub most: u32,
}
