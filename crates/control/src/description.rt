use chronicle::TimeText;
use desk_core::Standing;

/// What a session is told of a service at once.
#[derive(Clone, Copy)]
pub struct Description {
    /// Why it has its status, since which entry, and which is its newest report.
    pub standing: Standing,
    /// When the entry was made since which it has its status, where that is known.
    pub since: Option<TimeText>,
    /// When its newest report came, where that is known.
    pub reported: Option<TimeText>,
    /// It is to be reported at least every so many seconds, if it is expected to be.
    pub seconds: Option<u32>,
}
