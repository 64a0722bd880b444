ghost use Rattle.std.specs.Prelude.{◌≡◌, ◌≢◌, ◌<◌};
ghost use Rattle.std.specs.Time.{instant_nanos};
ghost use Rattle.live_server.specs.declared.queue.Queue.TheVariants.{Empty, Waiting, Failed};

use std::io::ErrorKind;
use std::time::{Duration, Instant};

/// How many milliseconds pass until it is tried again to accept, where that failed.
pub(crate) const RETRY_MILLIS: u64 = 100;

/// Whether connections may wait to be accepted at a socket that reports each time that one comes to an empty queue.
#[derive(Clone, Copy, Debug, PartialEq, Eq)]
pub enum Queue {
    /// None does, until the socket reports one.
    Empty,
    /// Some may.
    Waiting,
    /// Accepting failed, and is tried again then.
    Failed(Instant),
}

impl Queue {
    /// It is tried again after a while.
    pub fn failed(now: Instant) -> Queue {
        match now.checked_add(Duration::from_millis(RETRY_MILLIS)) {
            Some(until) => Queue::Failed(until),
            None => Queue::Waiting,
        }
    }

    /// Whether connections may wait behind an accept that failed so.
    pub fn behind(kind: ErrorKind, now: Instant) -> Queue {
        match kind {
            ErrorKind::WouldBlock => Queue::Empty,
            ErrorKind::Interrupted | ErrorKind::ConnectionAborted => Queue::Waiting,
            _ => Queue::failed(now),
        }
    }

    /// The socket has reported a connection. That ends no waiting for another try.
    pub fn reported(self) -> Queue
        ensures empty { self ≡ Empty → result ≡ Waiting }
        ensures others { self ≢ Empty → result ≡ self }
    {
        match self {
            Queue::Empty => Queue::Waiting,
            _ => self,
        }
    }

    /// Where the time to try again has come, connections may wait.
    pub fn retried(self, now: Instant) -> Queue
        ensures early { (until : Instant) → self ≡ Failed until → instant_nanos now < instant_nanos until → result ≡ self }
        ensures others { ((until : Instant) → self ≢ Failed until) → result ≡ self }
    {
        match self {
            Queue::Failed(until) if until <= now => Queue::Waiting,
            _ => self,
        }
    }
}
