use crate::event::Event;
use crate::rule::Rule;

/// A service's health by its events. A probe means a rule and one whole number of memory.
///
/// Callers may write kinds of their own, with a `Drop` of their own.
pub trait Probe: Drop {
    ghost use Rattle.std.specs.Prelude.{◌≡◌, ℕ};
    ghost use Rattle.probe_core.specs.declared.rule.Rule.{Rule};
    ghost use Rattle.probe_core.specs.Rule.{fits, opening_memory, memory_next, is_up_at, is_unknown_at};

    ghost rule: { Self → Rule };

    ghost memory: { Self → ℕ };

    fn rule(&self) -> Rule
        ensures { result ≡ rule self.now };

    /// Whether the service is up by its own events, whatever services it depends on.
    fn is_up(&self) -> bool
        ensures { result ≡ is_up_at (rule self.now) (memory self.now) };

    /// Whether nothing is known of the service yet. It is not up then.
    fn is_unknown(&self) -> bool
        ensures { result ≡ is_unknown_at (rule self.now) (memory self.now) };

    /// Takes the event in, if it is of the kind that the rule follows, and says whether it is.
    fn note(&mut self, event: Event) -> bool
        ensures fits { result ≡ fits (rule self.old) event }
        ensures rule { rule self.new ≡ rule self.old }
        ensures memory { memory self.new ≡ memory_next (rule self.old) event (memory self.old) };

    /// Goes back to the opening state.
    fn reset(&mut self)
        ensures rule { rule self.new ≡ rule self.old }
        ensures memory { memory self.new ≡ opening_memory (rule self.old) };
}

impl Probe for Box<dyn Probe + Send> {
    ghost rule = { λ probe. (Probe-box probe).rule probe.value };

    ghost memory = { λ probe. (Probe-box probe).memory probe.value };

    fn rule(&self) -> Rule {
        (**self).rule()
    }

    fn is_up(&self) -> bool {
        (**self).is_up()
    }

    fn is_unknown(&self) -> bool {
        (**self).is_unknown()
    }

    fn note(&mut self, event: Event) -> bool {
        (**self).note(event)
    }

    fn reset(&mut self) {
        (**self).reset()
    }
}
