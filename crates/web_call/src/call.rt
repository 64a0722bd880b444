mod asking;
mod steps;

use crate::intake::Intake;
use crate::outcome::Outcome;
use crate::outgoing::Outgoing;
use desk_core::Watch;

/// How far a call has come.
#[derive(Drop)]
pub(crate) enum CallStage {
    /// Its request is read, or waits to be answered, or the allocation for the body failed.
    Reading(Intake),
    /// A Watch is open.
    Watching(Watch),
    /// The last of its answer is sent.
    Ending(Outcome),
    /// The allocation for the answer failed.
    Starved,
}

/// One request and its answer, apart from who reads and writes them: it is given the bytes that come in, and tells those that
/// go out.
///
/// Whoever serves a call gives it bytes while it wants some; answers it, where its request is whole; sends what it has to send;
/// and, where it is a Watch and all is sent, lets it look for a change or ends it. It waits where its door does. Its buffers have room
/// for one head of 8,192 bytes, one body of as many, and one answer or message.
#[derive(Drop)]
pub struct Call {
    stage: CallStage,
    outgoing: Outgoing,
}
