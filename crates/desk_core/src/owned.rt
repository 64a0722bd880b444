use probe_core::{Event, Probe, Rule};
use std::marker::Model;

/// A registered probe, seen as its rule and its memory.
#[derive(Drop)]
pub(crate) struct Owned<P: Probe> {
    probe: P,
    /// Whether the last event that it took in was a pass.
    has_passed: bool,
}

impl<P: Probe> Model for Owned<P> {
    ghost use Rattle.std.specs.Prelude.{ℕ};
    ghost use Rattle.probe_core.specs.declared.rule.Rule.{Rule};
    ghost use Rattle.desk_core.specs.Owned.{TellsPasses};

    ghost Value = { Rule × ℕ };

    ghost view = { λ owned. (P.rule owned.probe, P.memory owned.probe) };

    ghost invariant = { λ owned.
        TellsPasses (P.rule owned.probe) (P.memory owned.probe) owned.has_passed };
}

impl<P: Probe> Owned<P> {
    ghost use Rattle.std.specs.Prelude.{◌≡◌};
    ghost use Rattle.probe_core.specs.Rule.{HasCounts, fits, is_unknown_at, is_up_at, memory_next, opening_memory};
    ghost use Rattle.desk_core.specs.Silence.{falls_at};

    /// A probe that has heard nothing.
    pub(crate) fn new(probe: P) -> Owned<P>
        requires { P.memory probe ≡ opening_memory (P.rule probe) }
        ensures { result ≡ (P.rule probe, P.memory probe) }
    {
        Owned {
            probe,
            has_passed: false,
        }
    }

    pub(crate) fn into_inner(self) -> P
        ensures { self ≡ (P.rule result, P.memory result) }
    {
        let Owned {
            probe,
            has_passed: _,
        } = self;
        probe
    }

    pub(crate) fn rule(&self) -> Rule
        ensures { result ≡ self.now.0 }
    {
        self.probe.rule()
    }

    pub(crate) fn is_up(&self) -> bool
        ensures { result ≡ is_up_at self.now.0 self.now.1 }
    {
        self.probe.is_up()
    }

    pub(crate) fn is_unknown(&self) -> bool
        ensures { result ≡ is_unknown_at self.now.0 self.now.1 }
    {
        self.probe.is_unknown()
    }

    pub(crate) fn note(&mut self, event: Event) -> bool
        ensures fits { result ≡ fits self.old.0 event }
        ensures value { self.new ≡ (self.old.0, memory_next self.old.0 event self.old.1) }
    {
        let fits = self.probe.note(event);
        if fits {
            self.has_passed = event == Event::Pass;
        }
        fits
    }

    /// Whether a fail would change what it counts.
    pub(crate) fn may_fall(&self) -> bool
        ensures { HasCounts self.now.0 → result ≡ falls_at self.now.0 self.now.1 }
    {
        self.rule().fits(Event::Fail) && !self.is_unknown() && (self.is_up() || self.has_passed)
    }

    pub(crate) fn reset(&mut self)
        ensures { self.new ≡ (self.old.0, opening_memory self.old.0) }
    {
        self.probe.reset();
        self.has_passed = false;
    }
}
