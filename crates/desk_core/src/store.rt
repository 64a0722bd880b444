ghost use Rattle.std.specs.Prelude.{◌≡◌, ◌++◌, ◌∷◌, [], List, false, OnOk, OnErr, IsOk};
ghost use Rattle.desk_core.specs.declared.entry.Entry.{Entry as JournalEntry};
ghost use Rattle.desk_core.specs.Left.{LeavesJournal, HasLeft, StandsIf, left_of, is_stored};

use crate::entry::Entry;
use crate::keep::Keep;

/// Entries were not stored. What a crash leaves may have all of them or none.
#[derive(Clone, Copy, Drop)]
pub struct NotStored;

/// Stores the entry, if there is a store.
pub(crate) fn store_entry<K: Keep>(store: &mut Option<K>, entry: Entry) -> Result<(), NotStored>
    ensures stored { (journal : List JournalEntry) → StandsIf K.stands store.old journal
        → OnOk result (StandsIf K.stands store.new (journal ++ entry ∷ [])) }
    ensures durable { (journal : List JournalEntry) → StandsIf K.stands store.old journal
        → OnOk result (LeavesJournal (left_of K.left store.new) (journal ++ entry ∷ [])) }
    ensures refused { (journal : List JournalEntry) → StandsIf K.stands store.old journal
        → OnErr result (StandsIf K.stands store.new journal) }
    ensures crash { (journal : List JournalEntry) → StandsIf K.stands store.old journal
        → HasLeft (left_of K.left store.old) (left_of K.left store.new)
        journal (journal ++ entry ∷ []) }
    ensures same { is_stored store.new ≡ is_stored store.old }
    ensures none { is_stored store.old ≡ false → IsOk result }
{
    match store {
        Some(store) => store.store(&[entry]),
        None => Ok(()),
    }
}
