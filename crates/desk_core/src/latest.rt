//! Since when services have their status.

ghost use Rattle.std.specs.Prelude.{◌≡◌};
ghost use Rattle.std.specs.Prelude.{[]};
ghost use Rattle.desk_core.specs.Standing.{reports};

use crate::call::Call;
use crate::change::shown;
use crate::entry::Entry;
use crate::reply::Reply;
use crate::slot::Slot;
use crate::status_word::StatusWord;

/// Of one slot, the places of entries.
#[derive(Clone, Copy)]
pub(crate) struct Latest {
    /// The newest that changed what is shown of it.
    pub(crate) shown: Option<u32>,
    /// The newest that is a report of it.
    pub(crate) reported: Option<u32>,
}

/// The same of all slots.
#[derive(Drop)]
pub(crate) struct LatestOfAll {
    slots: [Latest; 16],
}

impl Latest {
    ghost use Rattle.std.specs.Prelude.{◌≡◌};
    ghost use Rattle.desk_core.specs.Latest.{next_latest, nothing_yet};

    fn new() -> Latest
        ensures { result ≡ nothing_yet }
    {
        Latest {
            shown: None,
            reported: None,
        }
    }

    /// The same of a slot behind an entry at this place, by the statuses before and behind it.
    fn next(
        self,
        slot: Slot,
        entry: &Entry,
        at: u32,
        before: StatusWord,
        after: StatusWord,
    ) -> Latest
        ensures { result ≡ next_latest slot entry.now at before after self }
    {
        let is_same = shown(before.get(slot)) == shown(after.get(slot));
        Latest {
            shown: if is_same { self.shown } else { Some(at) },
            reported: if reports(slot, entry) {
                Some(at)
            } else {
                self.reported
            },
        }
    }
}

impl LatestOfAll {
    ghost use Rattle.std.specs.Prelude.{◌≡◌, ◌<◌, [], ℕ, List, slice_index_or};
    ghost use Rattle.desk_core.specs.declared.entry.Entry.{Entry};
    ghost use Rattle.desk_core.specs.declared.latest.Latest.{Latest};
    ghost use Rattle.desk_core.specs.Latest.{AreLatest, IsLatest, next_latest};

    pub(crate) fn new() -> LatestOfAll
        ensures { AreLatest [] result.slots }
    {
        LatestOfAll {
            slots: [Latest::new(); 16],
        }
    }

    pub(crate) fn of(&self, slot: Slot) -> Latest
        ensures { (entries : List Entry) → AreLatest entries self.now.slots
            → IsLatest entries slot result }
    {
        self.slots[usize::from(slot.number())]
    }

    /// Takes down an entry at this place, by the statuses before and behind it.
    pub(crate) fn note(&mut self, entry: &Entry, at: u32, before: StatusWord, after: StatusWord)
        ensures { (i : ℕ) (other : Latest) → i < 16 → slice_index_or self.new.slots i other
            ≡ next_latest i entry.now at before after (slice_index_or self.old.slots i other) }
    {
        for number in 0..Slot::COUNT {
            let latest = self.slots[usize::from(number)];
            let slot = Slot::at(number);
            self.slots[usize::from(number)] = latest.next(slot, entry, at, before, after);
        }
    }
}

/// Whether the entry is a report of the slot that was taken. The first seat makes none: it is the server's own.
fn reports(slot: Slot, entry: &Entry) -> bool
    ensures { result ≡ reports slot entry.now [] }
{
    match entry.call {
        Call::Observe(of, _) => of == slot && entry.seat != 0 && entry.reply == Reply::Done,
        Call::Register(..) | Call::Retire(_) | Call::Set(..) | Call::Shutdown | Call::Resume =>
            false,
    }
}
