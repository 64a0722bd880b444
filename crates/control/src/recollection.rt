use chronicle::Note;
use desk_core::Recall;

/// What a session is told of the entry at a place of the journal.
#[derive(Clone, Copy)]
pub struct Recollection {
    pub place: u32,
    /// When it was made and who asked for it, where that is known.
    pub note: Option<Note>,
    pub recall: Recall,
}
