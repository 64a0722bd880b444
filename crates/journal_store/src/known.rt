ghost use Rattle.std.specs.Prelude.{◌≡◌, ◌+◌, ◌^◌, ◌<◌};
ghost use Rattle.probe_core.specs.declared.event.Event.TheVariants.{Pass};
ghost use Rattle.probe_core.specs.declared.rule.Rule.TheVariants as rules;
ghost use Rattle.probe_core.specs.declared.start.Start.{Start};
ghost use Rattle.probe_core.specs.Rule.{count_next, counted, opening_memory};

use probe_core::{Event, Rule, Start};
use std::marker::Model;

/// What is known of a registered service: its rule, and the memory of what it heard.
#[derive(Clone, Copy)]
pub(crate) struct Known {
    rule: Rule,
    memory: u64,
}

impl Model for Known {
    ghost use Rattle.std.specs.Prelude.{ℕ};
    ghost use Rattle.probe_core.specs.declared.rule.Rule.{Rule};

    ghost Value = { Rule × ℕ };

    ghost view = { λ known. (known.rule, known.memory) };

    ghost inverse = { λ probe. record { rule = probe.0; memory = probe.1 } };
}

impl Known {
    ghost use Rattle.std.specs.Prelude.{◌≡◌};
    ghost use Rattle.probe_core.specs.Rule.{counted, is_unknown_at, memory_next, opening_memory};

    /// A service of this rule that heard nothing.
    pub(crate) fn new(rule: Rule) -> Known
        ensures { result ≡ (rule, opening_memory rule) }
    {
        Known {
            rule,
            memory: opening_memory(rule),
        }
    }

    pub(crate) fn rule(&self) -> Rule
        ensures { result ≡ self.now.0 }
    {
        self.rule
    }

    pub(crate) fn memory(&self) -> u64
        ensures { result ≡ self.now.1 }
    {
        self.memory
    }

    /// Takes an event in, if it is of the kind that the rule follows.
    pub(crate) fn note(&mut self, event: Event)
        ensures { self.new ≡ (self.old.0, memory_next self.old.0 event self.old.1) }
    {
        if self.rule.fits(event) {
            self.memory = count_next(self.rule, event, counted(self.rule, self.memory));
        }
    }

    /// Goes back to where it heard nothing.
    pub(crate) fn reset(&mut self)
        ensures { self.new ≡ (self.old.0, opening_memory self.old.0) }
    {
        self.memory = opening_memory(self.rule);
    }
}

fn opening_memory(rule: Rule) -> u64
    ensures { result ≡ opening_memory rule }
{
    match rule {
        Rule::Threshold(fall, rise, Start::Unknown) => u64::from(fall) + u64::from(rise),
        Rule::Threshold(_, _, Start::Up) | Rule::Manual | Rule::Depends(_) => 0,
    }
}

/// What a service with this memory has counted.
fn counted(rule: Rule, memory: u64) -> u64
    ensures { result ≡ counted rule memory }
{
    let is_unknown = match rule {
        Rule::Threshold(_, _, Start::Unknown) => memory == opening_memory(rule),
        Rule::Threshold(_, _, Start::Up) | Rule::Manual | Rule::Depends(_) => false,
    };
    if is_unknown { 0 } else { memory }
}

/// The count after one more event.
fn count_next(rule: Rule, event: Event, count: u64) -> u64
    ensures { result ≡ count_next rule event count }
{
    match rule {
        Rule::Threshold(fall, rise, _) => match event {
            Event::Pass => count_passed(u64::from(fall), u64::from(rise), count),
            Event::Fail => u64::from(fall).min(count.saturating_add(1)),
            Event::Up | Event::Down => count,
        },
        Rule::Manual => match event {
            Event::Up => 0,
            Event::Down => 1,
            Event::Pass | Event::Fail => count,
        },
        Rule::Depends(_) => count,
    }
}

/// The count of a threshold after a check that passes.
fn count_passed(fall: u64, rise: u64, count: u64) -> u64
    requires { fall + rise < 2 ^ 64 }
    ensures { (start : Start) → result ≡ count_next (rules.Threshold fall rise start) Pass count }
{
    if count >= fall && count < (fall + rise).saturating_sub(1) {
        count + 1
    } else {
        0
    }
}
