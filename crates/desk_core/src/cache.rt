ghost use Rattle.std.specs.Prelude.{◌≡◌, ◌<◌, ◌==◌, ℕ, if◌then◌else◌};
ghost use Rattle.desk_core.specs.Status.{has_slot};
ghost use Rattle.desk_core.specs.Cache.{relies_on};

use crate::call::Call;
use crate::slot::Slot;
use crate::slots::Slots;
use crate::status::{has_slot, status_of};
use crate::status_word::StatusWord;
use probe_core::{Probe, Rule};

/// The statuses of all slots, and for each slot the mask of the slots that depend on it.
#[derive(Drop)]
pub(crate) struct Cache {
    statuses: StatusWord,
    dependents: [u16; 16],
}

impl Cache {
    ghost use Rattle.std.specs.Prelude.{◌≡◌, ◌≢◌, true, false, None, slice_index_or, replicate};
    ghost use Rattle.std.specs.Option.{option_map};
    ghost use Rattle.std.specs.Int.Bits.{bit_or};
    ghost use Rattle.desk_core.specs.Status.{has_slot};
    ghost use Rattle.desk_core.specs.Board.{packed, status_in};
    ghost use Rattle.desk_core.specs.Slots.{with_status, covers_below, status_from};
    ghost use Rattle.desk_core.specs.Cache.{IsRefreshed, IsRelated, HasRule};

    pub(crate) fn new() -> Cache
        ensures statuses { result.statuses ≡ 0 }
        ensures dependents { result.dependents ≡ replicate 16 0 }
    {
        Cache {
            statuses: StatusWord::none(),
            dependents: [0; 16],
        }
    }

    pub(crate) fn statuses(&self) -> StatusWord
        ensures { result ≡ self.now.statuses }
    {
        self.statuses
    }

    /// Takes down the rules that are in force after a call.
    pub(crate) fn follow(&mut self, call: &Call)
        ensures statuses { self.new.statuses ≡ self.old.statuses }
        ensures dependents { IsRelated call.now self.old.dependents self.new.dependents }
    {
        match call {
            Call::Register(slot, rule) => self.relate(*slot, Some(*rule)),
            Call::Retire(slot) => self.relate(*slot, None),
            Call::Observe(..) | Call::Set(..) | Call::Shutdown | Call::Resume => {}
        }
    }

    /// Takes down that the slot depends on the slots of its rule's mask, and on no others.
    fn relate(&mut self, slot: Slot, rule: Option<Rule>)
        ensures statuses { self.new.statuses ≡ self.old.statuses }
        ensures dependents { HasRule slot rule self.old.dependents self.new.dependents }
    {
        for number in 0..Slot::COUNT {
            let on = Slot::at(number);
            let mask = self.dependents[usize::from(number)];
            self.dependents[usize::from(number)] = with_bit(mask, slot, relies_on(rule, on));
        }
    }

    /// Computes the statuses of the touched slots anew, in rising order, and of those that depend on a slot whose status
    /// changed.
    pub(crate) fn refresh<P: Probe>(&mut self, slots: &Slots<P>, is_shut: bool, touched: u16)
        ensures dependents { self.new.dependents ≡ self.old.dependents }
        ensures statuses { IsRefreshed touched slots.now.places.items is_shut
            self.old.dependents self.old.statuses self.new.statuses }
    {
        let mut marked = touched;
        for number in 0..Slot::COUNT {
            marked = self.refresh_slot(slots, is_shut, Slot::at(number), marked);
        }
    }

    /// Computes the slot's status anew, if it is marked. Where it changed, the slots that depend on it are marked too.
    fn refresh_slot<P: Probe>(
        &mut self,
        slots: &Slots<P>,
        is_shut: bool,
        slot: Slot,
        marked: u16,
    ) -> u16
        ensures dependents { self.new.dependents ≡ self.old.dependents }
        ensures unmarked { has_slot marked slot ≡ false → self.new.statuses ≡ self.old.statuses }
        ensures marked { has_slot marked slot ≡ true
            → self.new.statuses ≡ packed (with_status (status_in self.old.statuses) slot
            (option_map (status_from (covers_below (status_in self.old.statuses) 16) is_shut)
            (slice_index_or slots.now.places.items slot None))) 16 }
        ensures same { self.new.statuses ≡ self.old.statuses → result ≡ marked }
        ensures changed { self.new.statuses ≢ self.old.statuses
            → result ≡ bit_or marked (slice_index_or self.old.dependents slot 0) }
    {
        if !has_slot(marked, slot) {
            return marked;
        }
        let before = self.statuses;
        let status = status_of(slots.get(slot), is_shut, before);
        self.statuses.set(slot, status);
        if self.statuses == before {
            marked
        } else {
            marked | self.dependents[usize::from(slot.number())]
        }
    }
}

/// Whether a slot of this rule depends on the other.
fn relies_on(rule: Option<Rule>, on: Slot) -> bool
    ensures { result ≡ relies_on rule on }
{
    match rule {
        Some(rule) => has_slot(rule.relied_on(), on),
        None => false,
    }
}

/// The mask with this slot, or without it.
fn with_bit(mask: u16, slot: Slot, is_in: bool) -> u16
    ensures { (i : ℕ) → i < 16
        → has_slot result i ≡ (if i == slot then is_in else has_slot mask i) }
{
    let bit = 1u16 << slot.number();
    if is_in { mask | bit } else { mask & !bit }
}
