ghost use Rattle.std.specs.Prelude.{◌≡◌, ◌++◌, List, OnOk, OnErr};
ghost use Rattle.desk_core.specs.declared.entry.Entry.{Entry as JournalEntry};
ghost use Rattle.desk_core.specs.Left.{Left, LeavesJournal, HasLeft, nothing_left};

use crate::entry::Entry;
use crate::store::NotStored;

/// How many entries, and how many changes, a desk keeps in memory: the newest so many, or all; it forgets the older ones. A value of
/// it is a store, which keeps the entries so that they outlive the desk.
pub trait Keep: Drop {
    ghost use Rattle.std.specs.Prelude.{◌≡◌, ℕ, Option};

    ghost kept: { Option ℕ };

    /// The entries that a store has, but for those that it refused: a journal, the oldest entry first.
    ghost stands: { Self → List JournalEntry → Type 0 } = { λ _ _. Unit {0} };

    /// What a crash leaves of it: nothing, where it stores nothing.
    ghost left: { Self → Left } = { λ _. nothing_left };

    /// None where it keeps all.
    fn kept() -> Option<u32>
        ensures { result ≡ kept };

    /// Stores these entries behind those that it has, and returns once no crash takes them back: all of them, or none.
    fn store(&mut self, entries: &[Entry]) -> Result<(), NotStored>
        ensures stored { (journal : List JournalEntry) → stands self.old journal
            → OnOk result (stands self.new (journal ++ entries.now)) }
        ensures durable { (journal : List JournalEntry) → stands self.old journal
            → OnOk result (LeavesJournal (left self.new) (journal ++ entries.now)) }
        ensures refused { (journal : List JournalEntry) → stands self.old journal
            → OnErr result (stands self.new journal) }
        ensures crash { (journal : List JournalEntry) → stands self.old journal
            → HasLeft (left self.old) (left self.new) journal (journal ++ entries.now) };
}

/// All, and none of them beyond the process.
#[derive(Drop)]
pub struct KeepAll;

impl Keep for KeepAll {
    ghost use Rattle.std.specs.Prelude.{None};

    ghost kept = { None };

    fn kept() -> Option<u32> {
        None
    }

    fn store(&mut self, entries: &[Entry]) -> Result<(), NotStored> {
        Ok(())
    }
}

/// The last 65,536, and none of them beyond the process.
#[derive(Drop)]
pub struct KeepMany;

impl Keep for KeepMany {
    ghost use Rattle.std.specs.Prelude.{Some};

    ghost kept = { Some 65536 };

    fn kept() -> Option<u32> {
        Some(65_536)
    }

    fn store(&mut self, entries: &[Entry]) -> Result<(), NotStored> {
        Ok(())
    }
}

/// For how many entries, and for how many changes, there is memory.
#[derive(Clone, Copy, Drop)]
pub struct Capacity {
    pub entries: usize,
    pub changes: usize,
}
