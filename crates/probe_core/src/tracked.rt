//! A probe for tests, which tells how often it was dropped.

ghost use Rattle.std.specs.Prelude.{◌≡◌};

use crate::event::Event;
use crate::manual::Manual;
use crate::probe::Probe;
use crate::rule::Rule;
use std::sync::Arc;
use std::sync::atomic::{AtomicU64, Ordering};

/// A `Manual` that adds one to a counter when it is dropped.
pub struct Tracked {
    manual: Manual,
    drops: Arc<AtomicU64>,
}

impl Tracked {
    ghost use Rattle.probe_core.specs.declared.rule.Rule.TheVariants as rules;
    ghost use Rattle.probe_core.specs.Rule.{opening_memory};

    /// A service that was not set yet, and a counter that the caller keeps a share of.
    pub fn new(drops: Arc<AtomicU64>) -> Tracked
        ensures rule { ⟦<Tracked as Probe>⟧.rule result ≡ rules.Manual }
        ensures memory { ⟦<Tracked as Probe>⟧.memory result ≡ opening_memory rules.Manual }
    {
        Tracked {
            manual: Manual::new(),
            drops,
        }
    }
}

impl Drop for Tracked {
    fn drop(self) {
        let Tracked { manual: _, drops } = self;
        drops.fetch_add(1, Ordering::SeqCst);
    }
}

impl Probe for Tracked {
    ghost rule = { λ probe. ⟦<crate::Manual as Probe>⟧.rule probe.manual };

    ghost memory = { λ probe. ⟦<crate::Manual as Probe>⟧.memory probe.manual };

    fn rule(&self) -> Rule {
        self.manual.rule()
    }

    fn is_up(&self) -> bool {
        self.manual.is_up()
    }

    fn is_unknown(&self) -> bool {
        self.manual.is_unknown()
    }

    fn note(&mut self, event: Event) -> bool {
        self.manual.note(event)
    }

    fn reset(&mut self) {
        self.manual.reset()
    }
}
