ghost use Rattle.std.specs.Prelude.{◌≡◌};
ghost use Rattle.probe_core.specs.Rule.{is_count};

use crate::event::Event;
use crate::start::Start;

/// The greatest number that a rule counts to.
const MAX_COUNT: u32 = 1_000;

/// By what rule a service's status follows from its events.
#[derive(Clone, Copy, Debug, PartialEq, Eq)]
pub enum Rule {
    /// Down after so many failures in a row, and up again after so many passes in a row: the `fall` and `rise` of HAProxy.
    Threshold(u32, u32, Start),
    /// Up or down as it was last set.
    Manual,
    /// Up where the services of this mask are serving: bit i is slot i.
    Depends(u16),
}

impl Rule {
    ghost use Rattle.probe_core.specs.Rule.{fits, relied_on, is_in_range};

    /// Whether the event is of the kind that the rule follows.
    pub fn fits(self, event: Event) -> bool
        ensures { result ≡ fits self event }
    {
        match self {
            Rule::Threshold(..) => matches!(event, Event::Pass | Event::Fail),
            Rule::Manual => matches!(event, Event::Up | Event::Down),
            Rule::Depends(_) => false,
        }
    }

    /// The mask of the slots whose services have to be serving too; a rule that follows events has none.
    pub fn relied_on(self) -> u16
        ensures { result ≡ relied_on self }
    {
        match self {
            Rule::Depends(mask) => mask,
            Rule::Threshold(..) | Rule::Manual => 0,
        }
    }

    /// Whether each number that the rule counts to is from 1 to 1,000.
    pub fn is_in_range(self) -> bool
        ensures { result ≡ is_in_range self }
    {
        match self {
            Rule::Threshold(fall, rise, _) => is_count(fall) && is_count(rise),
            Rule::Manual | Rule::Depends(_) => true,
        }
    }
}

fn is_count(number: u32) -> bool
    ensures { result ≡ is_count number }
{
    1 <= number && number <= MAX_COUNT
}
