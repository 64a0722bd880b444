ghost use Rattle.std.specs.Borrow.{ftrue};
ghost use Rattle.journal_store.specs.Kept.{Kept};

use crate::preface::Preface;
use desk_core::Entry;
use entry_record::Stored;
use std::marker::Model;

/// What happens to a store.
#[derive(Drop)]
pub(crate) enum Step<'a> {
    /// It begins with a file of this preface and these entries.
    Begun(&'a Preface, &'a [Stored]),
    /// It is asked to keep these behind those that it has.
    Asked(&'a [Entry]),
    /// It has them, and no crash takes them back.
    Settled(&'a [Entry]),
}

/// The journal of a store and what a crash leaves of it, for proofs alone: it takes no memory, and its functions do nothing when they
/// run.
#[derive(Drop)]
pub struct Told {
    pub ghost kept: { Kept },
}

impl Model for Told {
    ghost also_owns = { λ _. ftrue };
}

// It owns nothing.
unsafe impl Send for Told {}

impl Told {
    ghost use Rattle.std.specs.Prelude.{◌≡◌, ℕ};
    ghost use Rattle.journal_store.specs.Kept.{nothing_kept, opened_at};
    ghost use Rattle.journal_store.specs.Steps.{behind};

    /// Of a store that has no entry.
    pub(crate) fn new() -> Told
        ensures { result.kept ≡ nothing_kept }
    {
        Told {}
    }

    /// The same with this step behind it.
    pub(crate) fn and(&self, _step: &Step<'_>) -> Told
        ensures { result.kept ≡ behind self.now.kept _step.now }
    {
        Told {}
    }

    /// The same over a device that is opened at a moment.
    pub(crate) fn opened<D>(&self, _device: &D) -> Told
        ghost moment: { ℕ }
        ensures { result.kept ≡ opened_at self.now.kept moment }
    {
        Told {}
    }
}
