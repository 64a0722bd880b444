use crate::slot::Slot;
use probe_core::{Event, Rule};

/// What a look at a service found.
#[derive(Clone, Copy, Debug, PartialEq, Eq)]
pub enum Finding {
    Pass,
    Fail,
}

impl Finding {
    ghost use Rattle.std.specs.Prelude.{◌≡◌};
    ghost use Rattle.desk_core.specs.Heard.{event_of_finding};

    /// What a probe hears of it.
    pub fn event(self) -> Event
        ensures { result ≡ event_of_finding self }
    {
        match self {
            Finding::Pass => Event::Pass,
            Finding::Fail => Event::Fail,
        }
    }
}

/// What somebody sets a service to.
#[derive(Clone, Copy, Debug, PartialEq, Eq)]
pub enum Setting {
    Up,
    Down,
}

impl Setting {
    ghost use Rattle.std.specs.Prelude.{◌≡◌};
    ghost use Rattle.desk_core.specs.Heard.{event_of_setting};

    /// What a probe hears of it.
    pub fn event(self) -> Event
        ensures { result ≡ event_of_setting self }
    {
        match self {
            Setting::Up => Event::Up,
            Setting::Down => Event::Down,
        }
    }
}

/// One change of the registry.
#[derive(Clone, Copy, Debug, PartialEq, Eq)]
pub enum Call {
    Register(Slot, Rule),
    Retire(Slot),
    Observe(Slot, Finding),
    Set(Slot, Setting),
    Shutdown,
    Resume,
}
