use crate::entry::Entry;

/// What a registry still knows of the entry at a place of its journal.
#[derive(Clone, Copy)]
pub enum Recall {
    Kept(Entry),
    /// There are so many behind it that it is no longer kept.
    Forgotten,
    /// There is no such entry yet.
    NoneYet,
}
