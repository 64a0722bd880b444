ghost use Rattle.std.specs.Prelude.{◌<◌};

use crate::verdict::Verdict;

/// A connection that is tried, to the address of this place among so many, and the reading until which it has time.
#[derive(Clone, Copy)]
pub struct Dial {
    pub place: usize,
    pub count: usize,
    pub until: u64,
    ghost within: { place < count },
}

/// What a look asks for next.
#[derive(Clone, Copy)]
pub enum Stage {
    /// The addresses of the host.
    Naming,
    /// A connection to one of them.
    Dialling(Dial),
    /// That the request is sent, and what comes.
    Reading,
    /// Nothing: it has ended.
    Over,
}

/// What comes of an event.
#[derive(Clone, Copy)]
pub enum Step {
    Stays,
    Goes(Stage),
    /// The look ends.
    Reports(Verdict),
}

impl Stage {
    ghost use Rattle.std.specs.Prelude.{◌≡◌};
    ghost use Rattle.observing.specs.Stage.{is_over};

    /// Whether nothing is asked for.
    pub fn is_over(self) -> bool
        ensures { result ≡ is_over self }
    {
        match self {
            Stage::Over => true,
            Stage::Naming | Stage::Dialling(_) | Stage::Reading => false,
        }
    }
}
