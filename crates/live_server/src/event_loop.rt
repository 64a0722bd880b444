use crate::acceptor::Acceptor;
use crate::caller::Caller;
use crate::conversations::Conversations;
use crate::queue::Queue;
use crate::tally::Tally;
use mio::{Events, Poll};
use reactor::Machine;
use std::sync::Arc;
use std::time::Instant;
use web_call::Call;

/// A loop of a server, which holds some of the connections that come to a socket, each with its conversation.
pub struct EventLoop<A, S, M: Machine> {
    pub(crate) poll: Poll,
    pub(crate) events: Events,
    pub(crate) acceptor: A,
    pub(crate) queue: Queue,
    /// Whether no place was free when it last wanted to accept.
    pub(crate) lacks_place: bool,
    /// When it last looked for conversations whose time is up.
    pub(crate) swept: Instant,
    /// When those that have sent nothing are given up, once all is to end.
    pub(crate) silence_ends_at: Option<Instant>,
    /// When what is left is given up then.
    pub(crate) ends_at: Option<Instant>,
    pub(crate) conversations: Conversations<S, M>,
    pub(crate) tally: Arc<Tally>,
}

impl<A: Drop, S: Drop, M: Machine> Drop for EventLoop<A, S, M> {
    fn drop(self) {
        let EventLoop {
            poll: _,
            events: _,
            acceptor: _,
            queue: _,
            lacks_place: _,
            swept: _,
            silence_ends_at: _,
            ends_at: _,
            conversations: _,
            tally: _,
        } = self;
    }
}

/// A loop over the calls that come to a socket, and the plain requests that come to another.
pub type EventServer = EventLoop<Acceptor, Caller, Call>;
