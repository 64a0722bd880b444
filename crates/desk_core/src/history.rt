ghost use Rattle.std.specs.Prelude.{◌≡◌};
ghost use Rattle.desk_core.specs.Slots.{touched};

use crate::cache::Cache;
use crate::call::Call;
use crate::change::{Change, tell};
use crate::entry::Entry;
use crate::keep::Capacity;
use crate::reply::Reply;
use crate::slot::Slot;
use crate::slots::Slots;
use crate::status_word::StatusWord;
use probe_core::{Probe, memory_tells_status};
use std::alloc::{AllocError, Global};
use tail::Tail;

/// The journal of all changes, what they changed for watchers, and the statuses that they led to.
#[derive(Drop)]
pub(crate) struct History {
    journal: Tail<Entry>,
    changes: Tail<Change>,
    cache: Cache,
}

impl History {
    ghost use Rattle.std.specs.Prelude.{◌≡◌, ℕ, ◌+◌, ◌^◌, ◌<◌, ◌≤◌, Some, [], ◌∷◌, ◌++◌, ◌↔◌, length, drop, replicate, IfSome, IsNone, IsOk, IsTrue, IfOk, OnOk, OnErr};
    ghost use Rattle.desk_core.specs.Cache.{IsRelated};
    ghost use Rattle.desk_core.specs.Changes.{changed};
    ghost use Rattle.desk_core.specs.Mutation.{entry_of};
    ghost use Rattle.desk_core.specs.Slots.{shown_in, touched};
    ghost use Rattle.desk_core.specs.Desk.{IsShown};
    ghost use Rattle.tail.specs.Tail.{forgotten, kept_of, most_held};

    /// An empty one, which keeps so many entries and changes, or all.
    pub(crate) fn new(alloc: Global, keep: Option<u32>) -> History
        ensures journal { result.journal.items ≡ [] }
        ensures changes { result.changes.items ≡ [] }
        ensures statuses { result.cache.statuses ≡ 0 }
        ensures dependents { result.cache.dependents ≡ replicate 16 0 }
        ensures kept { (result.journal.keep ≡ keep) × (result.changes.keep ≡ keep) }
        ensures capacity { (result.journal.capacity ≡ 0) × (result.changes.capacity ≡ 0) }
    {
        History {
            journal: Tail::new(alloc, keep),
            changes: Tail::new(alloc, keep),
            cache: Cache::new(),
        }
    }

    /// How many entries there are.
    pub(crate) fn len(&self) -> u64
        ensures { result ≡ length self.now.journal.items }
    {
        self.journal.len()
    }

    /// The entries that are kept.
    pub(crate) fn journal(&self) -> &[Entry]
        ensures { result.now ≡ kept_of self.now.journal.keep self.now.journal.items }
    {
        self.journal.kept()
    }

    /// The entries from this place on, unless one of them is forgotten.
    pub(crate) fn since(&self, place: u64) -> Option<&[Entry]>
        ensures items { IfSome result (λ entries.
            entries.now ≡ drop place self.now.journal.items) }
        ensures forgotten { IsNone result
            ↔ (place < forgotten self.now.journal.keep (length self.now.journal.items)) }
    {
        self.journal.since(place)
    }

    pub(crate) fn changes(&self) -> &Tail<Change>
        ensures { result.now ≡ self.now.changes }
    {
        &self.changes
    }

    /// For how many entries and changes there is memory.
    pub(crate) fn capacity(&self) -> Capacity
        ensures capacity { (result.entries ≡ self.now.journal.capacity)
            × (result.changes ≡ self.now.changes.capacity) }
        ensures entries { length (kept_of self.now.journal.keep self.now.journal.items)
            ≤ result.entries }
        ensures changes { length (kept_of self.now.changes.keep self.now.changes.items)
            ≤ result.changes }
        ensures most_entries { IfSome self.now.journal.keep (λ kept.
            result.entries ≤ most_held kept) }
        ensures most_changes { IfSome self.now.changes.keep (λ kept.
            result.changes ≤ most_held kept) }
    {
        Capacity {
            entries: self.journal.capacity(),
            changes: self.changes.capacity(),
        }
    }

    pub(crate) fn statuses(&self) -> StatusWord
        ensures { result ≡ self.now.cache.statuses }
    {
        self.cache.statuses()
    }

    /// Makes room for one more entry and for all that it may change.
    pub(crate) fn reserve(&mut self) -> Result<(), AllocError>
        ensures journal { self.new.journal.items ≡ self.old.journal.items }
        ensures changes { self.new.changes.items ≡ self.old.changes.items }
        ensures cache { self.new.cache ≡ self.old.cache }
        ensures room { OnOk result ((1 ≤ self.new.journal.room)
            × (16 ≤ self.new.changes.room)) }
        ensures full { (most : ℕ) → self.old.journal.keep ≡ Some most
            → self.old.changes.keep ≡ Some most → self.old.journal.capacity ≡ most_held most
            → self.old.changes.capacity ≡ most_held most → IsOk result }
        ensures grows { (self.old.journal.capacity ≤ self.new.journal.capacity)
            × (self.old.changes.capacity ≤ self.new.changes.capacity) }
        ensures kept { (self.new.journal.keep ≡ self.old.journal.keep)
            × (self.new.changes.keep ≡ self.old.changes.keep) }
    {
        self.changes.reserve(usize::from(Slot::COUNT))?;
        self.journal.reserve(1)
    }

    /// Adds an entry at the end, and answers its place.
    pub(crate) fn append(&mut self, seat: u16, call: Call, reply: Reply) -> u32
        requires room { 1 ≤ self.old.journal.room }
        requires few { length self.old.journal.items < 2 ^ 32 }
        ensures place { result ≡ length self.old.journal.items }
        ensures journal { self.new.journal.items
            ≡ self.old.journal.items ++ entry_of seat call reply ∷ [] }
        ensures changes { self.new.changes ≡ self.old.changes }
        ensures cache { self.new.cache ≡ self.old.cache }
        ensures capacity { self.new.journal.capacity ≡ self.old.journal.capacity }
        ensures kept { self.new.journal.keep ≡ self.old.journal.keep }
    {
        let at = self.journal.len() as u32;
        self.journal.push(Entry { seat, call, reply });
        at
    }

    /// Computes anew the statuses that the call touched, and those of the slots that depend on them, and lists what the entry at
    /// this place changed. It tells whether that is anything.
    pub(crate) fn show<P: Probe>(
        &mut self,
        slots: &Slots<P>,
        is_shut: bool,
        call: &Call,
        at: u32,
    ) -> bool
        requires room { 16 ≤ self.old.changes.room }
        requires few { length self.old.changes.items + 16 < 2 ^ 63 }
        ensures kept { (self.new.journal.keep ≡ self.old.journal.keep)
            × (self.new.changes.keep ≡ self.old.changes.keep) }
        ensures capacity { (self.new.journal.capacity ≡ self.old.journal.capacity)
            × (self.new.changes.capacity ≡ self.old.changes.capacity) }
        ensures journal { self.new.journal.items ≡ self.old.journal.items }
        ensures changes { self.new.changes.items
            ≡ self.old.changes.items
            ++ changed at (shown_in self.old.cache.statuses) (shown_in self.new.cache.statuses) 16 }
        ensures statuses { IsShown (touched call.now) slots.now.places.items is_shut
            self.new.cache.dependents self.old.cache.statuses self.new.cache.statuses }
        ensures dependents { IsRelated call.now self.old.cache.dependents self.new.cache.dependents }
        ensures shows { IsTrue result
            ↔ (length self.old.changes.items < length self.new.changes.items) }
    {
        memory_tells_status();
        let told = self.changes.len();
        let before = self.cache.statuses();
        self.cache.follow(call);
        self.cache.refresh(slots, is_shut, touched(call));
        tell(&mut self.changes, at, before, self.cache.statuses());
        self.changes.len() > told
    }
}

/// The slots whose status a call may change by itself, as the bits of a mask.
fn touched(call: &Call) -> u16
    ensures { result ≡ touched call.now }
{
    match call {
        Call::Register(slot, _)
        | Call::Retire(slot)
        | Call::Observe(slot, _)
        | Call::Set(slot, _) => 1 << slot.number(),
        Call::Shutdown | Call::Resume => u16::MAX,
    }
}
