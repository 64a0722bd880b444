ghost use Rattle.std.specs.Prelude.{◌≡◌};

use crate::event::Event;
use crate::probe::Probe;
use crate::rule::Rule;

/// A service that is up where those that it needs are serving, as a front end needs its database. It hears no events, and is up by itself.
#[derive(Drop)]
pub struct Depends {
    mask: u16,
}

impl Depends {
    ghost use Rattle.probe_core.specs.declared.rule.Rule.TheVariants as rules;
    ghost use Rattle.probe_core.specs.Rule.{opening_memory};

    /// Bit i of the mask is slot i. A registry takes a mask of slots before the service's own.
    pub fn new(mask: u16) -> Depends
        ensures rule { ⟦<Depends as Probe>⟧.rule result ≡ rules.Depends mask }
        ensures memory { ⟦<Depends as Probe>⟧.memory result ≡ opening_memory (rules.Depends mask) }
    {
        Depends { mask }
    }
}

impl Probe for Depends {
    ghost use Rattle.probe_core.specs.declared.rule.Rule.TheVariants as rules;

    ghost rule = { λ probe. rules.Depends probe.mask };

    ghost memory = { λ _. 0 };

    fn rule(&self) -> Rule {
        Rule::Depends(self.mask)
    }

    fn is_up(&self) -> bool {
        true
    }

    fn is_unknown(&self) -> bool {
        false
    }

    fn note(&mut self, _event: Event) -> bool {
        false
    }

    fn reset(&mut self) {}
}
