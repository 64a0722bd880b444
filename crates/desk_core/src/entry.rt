ghost use Rattle.std.specs.Prelude.{◌≡◌};
ghost use Rattle.desk_core.specs.Silence.{follows_findings};

use crate::call::Call;
use crate::reply::Reply;
use crate::slot::Slot;
use probe_core::{Event, Rule};

/// A change in the journal: whose it was, what was asked and what was answered.
#[derive(Clone, Copy, Debug, PartialEq, Eq)]
pub struct Entry {
    pub seat: u16,
    pub call: Call,
    pub reply: Reply,
}

impl Entry {
    ghost use Rattle.std.specs.Prelude.{◌≡◌};
    ghost use Rattle.desk_core.specs.Silence.{begins, ends, retimes};

    /// Whether a service that is expected to be heard has its whole time again behind this entry. The reports of this seat are none.
    pub fn begins(&self, seat: u16, slot: Slot) -> bool
        ensures { result ≡ begins seat slot self.now }
    {
        match self.call {
            Call::Register(of, rule) => of == slot && follows_findings(rule),
            Call::Observe(of, _) => of == slot && self.seat != seat && self.reply == Reply::Done,
            Call::Resume => true,
            Call::Retire(_) | Call::Set(..) | Call::Shutdown => false,
        }
    }

    /// Whether nothing is expected of the service any more behind this entry.
    pub fn ends(&self, slot: Slot) -> bool
        ensures { result ≡ ends slot self.now }
    {
        match self.call {
            Call::Register(of, rule) => of == slot && !follows_findings(rule),
            Call::Retire(of) => of == slot,
            Call::Observe(..) | Call::Set(..) | Call::Shutdown | Call::Resume => false,
        }
    }

    /// Whether it does one of both.
    pub(crate) fn retimes(&self, seat: u16, slot: Slot) -> bool
        ensures { result ≡ retimes seat slot self.now }
    {
        self.begins(seat, slot) || self.ends(slot)
    }
}

fn follows_findings(rule: Rule) -> bool
    ensures { result ≡ follows_findings rule }
{
    rule.fits(Event::Fail)
}
