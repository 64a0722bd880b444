ghost use Rattle.std.specs.Prelude.{◌≡◌};
ghost use Rattle.probe_core.specs.declared.rule.Rule.TheVariants as rules;
ghost use Rattle.probe_core.specs.Rule.{opening_memory};

use crate::event::Event;
use crate::probe::Probe;
use crate::rule::Rule;
use crate::start::Start;

/// A service that is checked: down after `fall` failed checks in a row, and up again after `rise` in a row that pass. These are
/// HAProxy's `fall` and `rise`; a service that was not checked yet has all its failures left.
#[derive(Drop)]
pub struct Threshold {
    fall: u32,
    rise: u32,
    start: Start,
    memory: u64,
}

impl Threshold {
    ghost use Rattle.probe_core.specs.declared.rule.Rule.TheVariants as rules;
    ghost use Rattle.probe_core.specs.declared.event.Event.{Event};
    ghost use Rattle.probe_core.specs.Rule.{opening_memory, counted, count_next};

    /// A service that was not checked yet. A registry takes numbers from 1 to 1,000.
    pub fn new(fall: u32, rise: u32, start: Start) -> Threshold
        ensures rule { ⟦<Threshold as Probe>⟧.rule result ≡ rules.Threshold fall rise start }
        ensures memory { ⟦<Threshold as Probe>⟧.memory result
            ≡ opening_memory (rules.Threshold fall rise start) }
    {
        Threshold {
            fall,
            rise,
            start,
            memory: opening_memory(fall, rise, start),
        }
    }

    /// What was counted before the next check.
    fn counted(&self) -> u64
        ensures { result
            ≡ counted (rules.Threshold self.now.fall self.now.rise self.now.start) self.now.memory }
    {
        if self.is_unknown() { 0 } else { self.memory }
    }

    /// The memory after a check that passes.
    fn passed(&self) -> u64
        ensures { result
            ≡ count_next (rules.Threshold self.now.fall self.now.rise self.now.start) Event.Pass
            (counted (rules.Threshold self.now.fall self.now.rise self.now.start) self.now.memory) }
    {
        let (fall, rise) = (u64::from(self.fall), u64::from(self.rise));
        let count = self.counted();
        if count >= fall && count < (fall + rise).saturating_sub(1) {
            count + 1
        } else {
            0
        }
    }
}

impl Probe for Threshold {
    ghost use Rattle.probe_core.specs.declared.rule.Rule.TheVariants as rules;

    ghost rule = { λ probe. rules.Threshold probe.fall probe.rise probe.start };

    ghost memory = { λ probe. probe.memory };

    fn rule(&self) -> Rule {
        Rule::Threshold(self.fall, self.rise, self.start)
    }

    fn is_up(&self) -> bool {
        self.memory < u64::from(self.fall)
    }

    fn is_unknown(&self) -> bool {
        match self.start {
            Start::Up => false,
            Start::Unknown => self.memory == u64::from(self.fall) + u64::from(self.rise),
        }
    }

    fn note(&mut self, event: Event) -> bool {
        match event {
            Event::Pass => self.memory = self.passed(),
            Event::Fail => self.memory = u64::from(self.fall).min(self.counted().saturating_add(1)),
            Event::Up | Event::Down => return false,
        }
        true
    }

    fn reset(&mut self) {
        self.memory = opening_memory(self.fall, self.rise, self.start);
    }
}

/// Of a service that starts unknown the sum of both numbers, which no count of a rule in range reaches.
fn opening_memory(fall: u32, rise: u32, start: Start) -> u64
    ensures { result ≡ opening_memory (rules.Threshold fall rise start) }
{
    match start {
        Start::Up => 0,
        Start::Unknown => u64::from(fall) + u64::from(rise),
    }
}
