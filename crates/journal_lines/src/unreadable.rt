ghost use Rattle.std.specs.Prelude.{◌≡◌};
ghost use Rattle.journal_lines.specs.declared.unreadable.Unreadable.TheVariants.{Memory};

use std::alloc::{AllocError, AllocFailed};

/// Why the records of a file are no journal.
#[derive(Clone, Copy, Drop)]
pub(crate) enum Unreadable {
    Memory,
    /// The record of this number, counted from 0, is none of a journal.
    Record(usize),
}

impl From<AllocError> for Unreadable {
    ghost from_gives = { λ _ why. why ≡ Memory };

    fn from(_: AllocError) -> Self {
        Unreadable::Memory
    }
}

impl<T: Drop> From<AllocFailed<T>> for Unreadable {
    ghost from_gives = { λ _ why. why ≡ Memory };

    fn from(_: AllocFailed<T>) -> Self {
        Unreadable::Memory
    }
}
