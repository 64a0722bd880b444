ghost use Rattle.std.specs.Prelude.{◌≡◌, ◌<◌, ◌||◌, not};
ghost use Rattle.desk_core.specs.Status.{has_slot, is_serving};
ghost use Rattle.std.specs.Option.{option_copied, option_map};
ghost use Rattle.desk_core.specs.Board.{status_in};
ghost use Rattle.desk_core.specs.Reason.{first_down, if_down};
ghost use Rattle.desk_core.specs.Slots.{covers_below, status_from};

use crate::owned::Owned;
use crate::slot::Slot;
use crate::status_word::StatusWord;
use health_wire::Serving;
use probe_core::Probe;

/// The status of a slot, by its probe and a word in which the slots that it depends on have theirs.
pub(crate) fn status_of<P: Probe>(
    owned: Option<&Owned<P>>,
    is_shut: bool,
    below: StatusWord,
) -> Option<Serving>
    ensures { result ≡ option_map (status_from (covers_below (status_in below) 16) is_shut)
        (option_copied owned.entry) }
{
    let owned = owned?;
    if is_shut {
        return Some(Serving::NotServing);
    }
    if owned.is_unknown() {
        Some(Serving::Unknown)
    } else if owned.is_up() && covers(below, owned.rule().relied_on()) {
        Some(Serving::Serving)
    } else {
        Some(Serving::NotServing)
    }
}

/// Whether all slots of the mask are serving.
fn covers(below: StatusWord, mask: u16) -> bool
    ensures { result ≡ covers_below (status_in below) 16 mask }
{
    if mask == 0 {
        return true;
    }
    let mut all = true;
    for number in 0..Slot::COUNT {
        let slot = Slot::at(number);
        all &= allows(mask, slot, below.get(slot));
    }
    all
}

/// The first slot of the mask that is not serving.
pub(crate) fn first_down(statuses: StatusWord, mask: u16) -> Option<Slot>
    ensures { result ≡ first_down (status_in statuses) mask 16 }
{
    let mut first = None;
    for number in 0..Slot::COUNT {
        first = first.or(if_down(statuses, mask, Slot::at(number)));
    }
    first
}

/// The slot, if it is in the mask and not serving.
fn if_down(statuses: StatusWord, mask: u16, slot: Slot) -> Option<Slot>
    ensures { result ≡ if_down (status_in statuses) mask slot }
{
    if allows(mask, slot, statuses.get(slot)) {
        None
    } else {
        Some(slot)
    }
}

/// Whether the slot is serving, if it is in the mask.
fn allows(mask: u16, slot: Slot, status: Option<Serving>) -> bool
    ensures { result ≡ (not (has_slot mask slot) || is_serving status) }
{
    !has_slot(mask, slot) || is_serving(status)
}

pub(crate) fn has_slot(mask: u16, slot: Slot) -> bool
    ensures { result ≡ has_slot mask slot }
{
    (mask >> slot.number()) % 2 == 1
}

fn is_serving(status: Option<Serving>) -> bool
    ensures { result ≡ is_serving status }
{
    matches!(status, Some(Serving::Serving))
}
