ghost use Rattle.std.specs.Borrow.{ftrue};
ghost use Rattle.reactor.specs.Moved.{Moved, moved_code};

use crate::host::Step;
use std::marker::Model;

/// What is moved at once.
#[derive(Drop)]
pub(crate) enum Part<'a> {
    /// These bytes are read, of which so many at the end are thrown away.
    Read(&'a [u8], usize),
    /// These bytes are sent.
    Sent(&'a [u8]),
    /// The input is at its end.
    Ended,
}

/// All that a conversation has moved since it began, for proofs alone: it takes no memory, and its functions do nothing when they run.
#[derive(Drop)]
pub struct Past {
    pub ghost moved: { Moved } by { moved_code },
}

impl Model for Past {
    ghost also_owns = { λ _. ftrue };
}

// It owns nothing.
unsafe impl Send for Past {}

impl Past {
    ghost use Rattle.std.specs.Prelude.{◌≡◌};
    ghost use Rattle.reactor.specs.Moved.{followed_by, nothing_moved};
    ghost use Rattle.reactor.specs.Past.{part_of};
    ghost use Rattle.reactor.specs.Turn.{stepped};
    ghost use Rattle.web_call.specs.Answer.{Source};

    /// Of a conversation that begins.
    pub fn new() -> Past
        ensures { result.moved ≡ nothing_moved }
    {
        Past {}
    }

    /// The same with this behind it.
    #[inline(always)]
    pub(crate) fn and(&self, _part: &Part<'_>) -> Past
        ensures { result.moved ≡ followed_by self.now.moved (part_of _part.now) }
    {
        Past {}
    }

    /// The same with a step behind it that came to this, of a host that answers from a source.
    #[inline(always)]
    pub(crate) fn stepped<H>(&self, _host: &H, _step: &Step) -> Past
        ghost source: { Source }
        ensures { result.moved ≡ followed_by self.now.moved (stepped source _step.now) }
    {
        Past {}
    }
}
