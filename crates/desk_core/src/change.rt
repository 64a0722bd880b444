ghost use Rattle.std.specs.Prelude.{◌≡◌, ◌+◌, ◌%◌, ◌<◌, ◌≤◌, ◌^◌, [], ◌∷◌, ◌++◌, length, if◌then◌else◌, unwrap_or};
ghost use Rattle.health_wire.specs.declared.serving.Serving.TheVariants.{ServiceUnknown};
ghost use Rattle.desk_core.specs.Board.{status_of_code};
ghost use Rattle.desk_core.specs.Changes.{is_same, changed};
ghost use Rattle.desk_core.specs.Slots.{shown_in};

use crate::slot::Slot;
use crate::status_word::{StatusWord, status_of_code};
use health_wire::Serving;
use tail::Tail;

/// What one entry changed for a service's watchers: from it on, until the service's next change, it is shown with this
/// status, and just before it with another.
#[derive(Clone, Copy)]
pub struct Change {
    /// The place of the entry in the journal, from 0.
    pub at: u32,
    pub slot: Slot,
    pub status: Serving,
}

/// Lists the slots that are shown otherwise after the entry at this place than before it. It looks at the words from the
/// first slot up, as long as what is left of them differs.
pub(crate) fn tell(changes: &mut Tail<Change>, at: u32, before: StatusWord, after: StatusWord)
    requires room { 16 ≤ changes.old.room }
    requires few { length changes.old.items + 16 < 2 ^ 63 }
    ensures kept { changes.new.keep ≡ changes.old.keep }
    ensures capacity { changes.new.capacity ≡ changes.old.capacity }
    ensures told { changes.new.items
        ≡ changes.old.items ++ changed at (shown_in before) (shown_in after) 16 }
{
    let mut old = before.word();
    let mut new = after.word();
    let mut number = 0;
    while old != new {
        let slot = Slot::at(number);
        tell_slot(changes, at, slot, first_shown(old), first_shown(new));
        old /= 4;
        new /= 4;
        number += 1;
    }
}

/// What a watcher is shown of the first slot of a word.
fn first_shown(word: u32) -> Serving
    ensures { result ≡ unwrap_or (status_of_code (word % 4)) ServiceUnknown }
{
    shown(status_of_code(word % 4))
}

/// Lists the slot if it is shown otherwise than before.
fn tell_slot(changes: &mut Tail<Change>, at: u32, slot: Slot, before: Serving, after: Serving)
    requires room { 0 < changes.old.room }
    requires few { length changes.old.items + 1 < 2 ^ 63 }
    ensures told { changes.new.items ≡ changes.old.items
        ++ (if is_same before after then []
        else record { at = at; slot = slot; status = after } ∷ []) }
    ensures len { length changes.new.items ≤ length changes.old.items + 1 }
    ensures room { changes.old.room ≤ changes.new.room + 1 }
    ensures kept { changes.new.keep ≡ changes.old.keep }
    ensures capacity { changes.new.capacity ≡ changes.old.capacity }
{
    if is_same(before, after) {
        return;
    }
    let change = Change {
        at,
        slot,
        status: after,
    };
    changes.push(change);
}

fn is_same(a: Serving, b: Serving) -> bool
    ensures { result ≡ is_same a b }
{
    a == b
}

/// What a watcher is shown for a status, or for none.
pub(crate) fn shown(status: Option<Serving>) -> Serving
    ensures { result ≡ unwrap_or status ServiceUnknown }
{
    status.unwrap_or(Serving::ServiceUnknown)
}
