use crate::reason::Reason;

/// What is told of a service at once, at a point of the history.
#[derive(Clone, Copy)]
pub struct Standing {
    /// Why it has its status.
    pub reason: Reason,
    /// The place of the newest entry that changed what is shown of it.
    pub since: Option<u32>,
    /// The place of its newest report that was taken.
    pub reported: Option<u32>,
}
