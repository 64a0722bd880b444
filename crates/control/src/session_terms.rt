use crate::terms::Terms;

/// What holds for the sessions of a place, and how they come to it.
#[derive(Clone, Copy)]
pub struct SessionTerms {
    pub place: Terms,
    /// Whether they come over TCP, by which web pages reach a place too.
    pub over_tcp: bool,
}
