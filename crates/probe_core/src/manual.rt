ghost use Rattle.std.specs.Prelude.{◌≡◌};

use crate::event::Event;
use crate::probe::Probe;
use crate::rule::Rule;

/// A service whose status somebody sets, as `SetServingStatus` of gRPC's Go server does.
#[derive(Debug, Drop)]
pub struct Manual {
    is_down: bool,
}

impl Manual {
    ghost use Rattle.probe_core.specs.declared.rule.Rule.TheVariants as rules;
    ghost use Rattle.probe_core.specs.Rule.{opening_memory};

    /// A service that was not set yet, which is up.
    pub fn new() -> Manual
        ensures rule { ⟦<Manual as Probe>⟧.rule result ≡ rules.Manual }
        ensures memory { ⟦<Manual as Probe>⟧.memory result ≡ opening_memory rules.Manual }
    {
        Manual { is_down: false }
    }
}

impl Probe for Manual {
    ghost use Rattle.std.specs.Int.{from_bool};
    ghost use Rattle.probe_core.specs.declared.rule.Rule.TheVariants as rules;

    ghost rule = { λ _. rules.Manual };

    ghost memory = { λ probe. from_bool probe.is_down };

    fn rule(&self) -> Rule {
        Rule::Manual
    }

    fn is_up(&self) -> bool {
        !self.is_down
    }

    fn is_unknown(&self) -> bool {
        false
    }

    fn note(&mut self, event: Event) -> bool {
        match event {
            Event::Up => self.is_down = false,
            Event::Down => self.is_down = true,
            Event::Pass | Event::Fail => return false,
        }
        true
    }

    fn reset(&mut self) {
        self.is_down = false;
    }
}
