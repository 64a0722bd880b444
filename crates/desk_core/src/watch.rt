ghost use Rattle.std.specs.Prelude.{◌≡◌, position};
ghost use Rattle.desk_core.specs.Watch.{is_of};

use crate::change::Change;
use crate::slot::Slot;
use health_wire::Serving;
use std::marker::Model;
use tail::Tail;

/// The watch is before the oldest change that is kept, so that its next one may be forgotten. A watch of a name without a slot never
/// is: it has no change.
#[derive(Clone, Copy, Debug, PartialEq, Eq)]
pub struct Behind;

/// A watcher of a service, or of a name that has no slot: it is told each later status change once, in order.
#[derive(Drop)]
pub struct Watch {
    slot: Option<Slot>,
    start: u64,
    cursor: u64,
}

impl Model for Watch {
    ghost use Rattle.desk_core.specs.Watch.{WatchState};

    ghost Value = { WatchState };

    ghost view = { λ watch.
        record { slot = watch.slot; start = watch.start; cursor = watch.cursor } };
}

impl Watch {
    ghost use Rattle.std.specs.Prelude.{◌≡◌, ◌+◌, ◌<◌, ◌^◌, ◌↔◌, List, drop, length, IsErr, IsNone, IsSome, IfOk, IfSome, OnOk, OnErr};
    ghost use Rattle.desk_core.specs.declared.change.Change.{Change};
    ghost use Rattle.desk_core.specs.Watch.{IsBehind, opened, answer_of, stepped};

    pub(crate) fn new(changes: &Tail<Change>, slot: Option<Slot>) -> Watch
        ensures { result ≡ opened changes.now.items slot }
    {
        let start = changes.len();
        Watch {
            slot,
            start,
            cursor: start,
        }
    }

    pub fn slot(&self) -> Option<Slot>
        ensures { result ≡ self.now.slot }
    {
        self.slot
    }

    /// How many changes there were when the watch was opened.
    pub fn start(&self) -> u64
        ensures { result ≡ self.now.start }
    {
        self.start
    }

    /// The place in the list of changes from which the next step looks on.
    pub fn cursor(&self) -> u64
        ensures { result ≡ self.now.cursor }
    {
        self.cursor
    }

    /// Answers the service's next status change, and moves past it, or to the end of the status changes where there is none.
    pub(crate) fn step(&mut self, changes: &Tail<Change>) -> Result<Option<Serving>, Behind>
        ensures status { IfOk result (λ status. status ≡ answer_of changes.now.items self.old) }
        ensures watch { OnOk result (self.new ≡ (stepped changes.now.items self.old).1) }
        ensures behind { IsErr result ↔ IsBehind changes.now.keep changes.now.items self.old }
        ensures stays { OnErr result (self.new ≡ self.old) }
    {
        self.pass(changes.since(self.cursor), changes.len())
    }

    /// The same as `step` over what the changes are from the cursor on, where none of those is forgotten, of so many in all.
    pub(crate) fn pass(
        &mut self,
        rest: Option<&[Change]>,
        len: u64,
    ) -> Result<Option<Serving>, Behind>
        requires few { IfSome rest (λ r. 0 < length r.now
            → self.old.cursor + length r.now < 2 ^ 63) }
        ensures status { (changes : List Change) → IfSome rest.entry (λ r.
            r.now ≡ drop self.old.cursor changes)
            → IfOk result (λ status. status ≡ answer_of changes self.old) }
        ensures watch { (changes : List Change) → len ≡ length changes → IfSome rest.entry (λ r.
            r.now ≡ drop self.old.cursor changes)
            → OnOk result (self.new ≡ (stepped changes self.old).1) }
        ensures behind { IsErr result ↔ (IsSome self.old.slot × IsNone rest.entry) }
        ensures stays { OnErr result (self.new ≡ self.old) }
    {
        let Some(slot) = self.slot else {
            self.cursor = self.cursor.max(len);
            return Ok(None);
        };
        let Some(rest) = rest else {
            return Err(Behind);
        };
        match first_of(rest, slot) {
            Some(place) => {
                self.cursor += place as u64 + 1;
                Ok(Some(rest[place].status))
            }
            None => {
                self.cursor = self.cursor.max(len);
                Ok(None)
            }
        }
    }
}

/// The place of the slot's first change.
fn first_of(changes: &[Change], slot: Slot) -> Option<usize>
    ensures { result ≡ position (is_of slot) changes.now }
{
    changes.iter().position(|change| change.slot == slot)
}
