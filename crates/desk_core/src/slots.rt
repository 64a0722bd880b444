ghost use Rattle.std.specs.Prelude.{◌≡◌};
ghost use Rattle.desk_core.specs.Slots.{noted, was_reset};

use crate::call::Call;
use crate::owned::Owned;
use crate::reply::Reply;
use crate::slot::Slot;
use probe_core::{Event, Probe, Rule};
use std::alloc::{AllocError, Global};

/// The probes of all slots. A slot past the end of the places has none.
#[derive(Drop)]
pub(crate) struct Slots<P: Probe> {
    places: Vec<Option<Owned<P>>>,
}

impl<P: Probe> Slots<P> {
    ghost use Rattle.std.specs.Prelude.{◌≡◌, ◌≢◌, ◌<◌, ◌≤◌, ℕ, List, [], None, Some, false, length, slice_index_or, slice_set, map, IsOk, OnOk};
    ghost use Rattle.std.specs.Option.{option_copied, option_map};
    ghost use Rattle.desk_core.specs.Slots.{was_reset, HasSame, IsHeard, IsApplied, TakesFromSlot, held_at};
    ghost use Rattle.desk_core.specs.Mutation.{rule_of};
    ghost use Rattle.desk_core.specs.Silence.{falls_at};
    ghost use Rattle.probe_core.specs.declared.rule.Rule.{Rule};
    ghost use Rattle.probe_core.specs.Rule.{HasCounts, opening_memory};

    pub(crate) fn new(alloc: Global) -> Slots<P>
        ensures { result.places.items ≡ [] }
    {
        Slots {
            places: Vec::new(alloc),
        }
    }

    /// Takes the memory for a probe in any slot.
    pub(crate) fn reserve(&mut self) -> Result<(), AllocError>
        ensures same { HasSame self.old.places.items self.new.places.items }
        ensures room { OnOk result (15 < length self.new.places.items) }
        ensures full { 15 < length self.old.places.items → IsOk result }
        ensures grows { length self.old.places.items ≤ length self.new.places.items }
    {
        while self.places.len() < 16 {
            self.places.push(None)?;
        }
        Ok(())
    }

    pub(crate) fn get(&self, slot: Slot) -> Option<&Owned<P>>
        ensures { option_copied result ≡ slice_index_or self.now.places.items slot None }
    {
        match self.places.get(usize::from(slot.number())) {
            Some(place) => place.as_ref(),
            None => None,
        }
    }

    pub(crate) fn rule(&self, slot: Slot) -> Option<Rule>
        ensures { result
            ≡ option_map (λ state. state.0) (slice_index_or self.now.places.items slot None) }
    {
        self.get(slot).map(|owned| owned.rule())
    }

    /// Whether a fail would change what the slot's probe counts.
    pub(crate) fn may_fall(&self, slot: Slot) -> bool
        ensures some { (state : Rule × ℕ) → slice_index_or self.now.places.items slot None ≡ Some state
            → HasCounts state.0 → result ≡ falls_at state.0 state.1 }
        ensures none { slice_index_or self.now.places.items slot None ≡ None → result ≡ false }
    {
        match self.get(slot) {
            Some(owned) => owned.may_fall(),
            None => false,
        }
    }

    /// Does what a call that had this reply does to the probes, with the probe that it registers. Gives back the one that it takes
    /// out.
    pub(crate) fn apply(&mut self, call: &Call, reply: Reply, probe: Option<P>) -> Option<P>
        requires room { 15 < length self.old.places.items }
        requires ruled { option_map P.rule probe ≡ rule_of call.now }
        ensures applied { IsApplied call.now reply self.old.places.items self.new.places.items }
        ensures old { option_map (λ p. (P.rule p, P.memory p)) result
            ≡ held_at self.old.places.items call.now }
        ensures from { TakesFromSlot call.now }
        ensures places { length self.new.places.items ≡ length self.old.places.items }
    {
        match call {
            Call::Register(slot, _) => self.put(*slot, probe.unwrap()),
            Call::Retire(slot) => self.take(*slot).map(Owned::into_inner),
            Call::Observe(slot, finding) => {
                self.hear(*slot, finding.event(), reply);
                None
            }
            Call::Set(slot, setting) => {
                self.hear(*slot, setting.event(), reply);
                None
            }
            Call::Shutdown => None,
            Call::Resume => {
                self.reset();
                None
            }
        }
    }

    /// Puts a probe, in its opening state, into the slot, and gives the old one back.
    fn put(&mut self, slot: Slot, probe: P) -> Option<P>
        requires { 15 < length self.old.places.items }
        ensures there { slot < length self.old.places.items }
        ensures few { slot < 16 }
        ensures old { option_map (λ p. (P.rule p, P.memory p)) result
            ≡ slice_index_or self.old.places.items slot None }
        ensures after { self.new.places.items ≡ slice_set self.old.places.items slot
            (Some (P.rule probe, opening_memory (P.rule probe))) }
    {
        let mut probe = probe;
        probe.reset();
        self.replace(slot, Owned::new(probe)).map(Owned::into_inner)
    }

    fn replace(&mut self, slot: Slot, owned: Owned<P>) -> Option<Owned<P>>
        requires { 15 < length self.old.places.items }
        ensures there { slot < length self.old.places.items }
        ensures few { slot < 16 }
        ensures old { result ≡ slice_index_or self.old.places.items slot None }
        ensures after { self.new.places.items ≡ slice_set self.old.places.items slot (Some owned) }
    {
        self.places[usize::from(slot.number())].replace(owned)
    }

    fn take(&mut self, slot: Slot) -> Option<Owned<P>>
        ensures few { slot < 16 }
        ensures old { result ≡ slice_index_or self.old.places.items slot None }
        ensures after { self.new.places.items ≡ slice_set self.old.places.items slot None }
    {
        match self.places.get_mut(usize::from(slot.number())) {
            Some(place) => place.take(),
            None => None,
        }
    }

    /// Lets the slot's probe hear an event that was answered with `Done`.
    pub(crate) fn hear(&mut self, slot: Slot, event: Event, reply: Reply)
        ensures { IsHeard slot event reply self.old.places.items self.new.places.items }
    {
        let Reply::Done = reply else {
            return;
        };
        let index = usize::from(slot.number());
        if index < self.places.len() {
            note_place(&mut self.places[index], event);
        }
    }

    /// Takes all probes back to their opening state.
    fn reset(&mut self)
        ensures { self.new.places.items ≡ map was_reset self.old.places.items }
    {
        for index in 0..self.places.len() {
            reset_place(&mut self.places[index]);
        }
    }
}

fn note_place<P: Probe>(place: &mut Option<Owned<P>>, event: Event)
    ensures { place.new ≡ noted event place.old }
{
    if let Some(owned) = place {
        owned.note(event);
    }
}

fn reset_place<P: Probe>(place: &mut Option<Owned<P>>)
    ensures { place.new ≡ was_reset place.old }
{
    if let Some(owned) = place {
        owned.reset();
    }
}
