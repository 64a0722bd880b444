ghost use Rattle.live_server.specs.Held.{held_in};
ghost use Rattle.live_server.specs.Settled.{AreSettled};

use crate::held::Held;
use reactor::{MOST_TAKEN, Machine};
use std::alloc::Global;

/// What has become of a loop's conversations. A count stays at its greatest number once it has come to it.
#[derive(Clone, Copy, PartialEq, Eq)]
pub struct Counts {
    /// Those whose time was up.
    pub given_up: u64,
    /// Watches that were behind.
    pub behind: u64,
    /// Watches that found no place.
    pub refused: u64,
    /// Those that ended before all was sent for any other reason: the client broke off or went away, or an allocation failed.
    pub gone: u64,
}

/// A look through the keys of a table, for those whose turn it is.
#[derive(Clone, Copy)]
pub(crate) struct Look {
    /// The key that it goes on from.
    pub(crate) from: usize,
    /// Whether it is for each open Watch, since something has changed, and not only for those that could go on.
    pub(crate) is_for_all: bool,
}

/// The connections that a loop holds, with their conversations.
#[derive(Drop)]
pub(crate) struct Conversations<S, M: Machine> {
    pub(crate) alloc: Global,
    pub(crate) held: Held<S, M>,
    pub(crate) counts: Counts,
    /// How many changes there were when the last look for all began.
    pub(crate) seen: u64,
    /// Whether an open Watch could go on whose turn comes in the next look.
    pub(crate) has_more: bool,
    /// The look that is not at its end, where there is one.
    pub(crate) look: Option<Look>,
    /// Apart from the rest, which moves with its loop.
    pub(crate) buffer: Box<[u8; MOST_TAKEN]>,
    ghost settled: { AreSettled M.watches M.waiting (held_in held) },
}
