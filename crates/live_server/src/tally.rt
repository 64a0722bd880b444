use std::sync::atomic::{AtomicU64, Ordering};

/// What a loop counts of its calls, for others to read while it serves.
///
/// Each number is that of the end of some round of the loop; two that are read one after the other may be of two rounds.
#[derive(Drop)]
pub struct Tally {
    connections: AtomicU64,
    watches: AtomicU64,
    ended: AtomicU64,
    given_up: AtomicU64,
    behind: AtomicU64,
    refused: AtomicU64,
    gone: AtomicU64,
}

/// The numbers of a tally.
#[derive(Clone, Copy)]
pub struct Tallied {
    /// Connections that are held.
    pub connections: u64,
    /// Those of them that have a Watch's place.
    pub watches: u64,
    /// Calls that have ended.
    pub ended: u64,
    /// Those of them whose time was up.
    pub given_up: u64,
    /// Those of them whose Watch was behind.
    pub behind: u64,
    /// Those of them whose Watch found no place.
    pub refused: u64,
    /// Those of them that ended before all was sent for any other reason.
    pub gone: u64,
}

impl Tally {
    pub(crate) fn new() -> Tally {
        Tally {
            connections: AtomicU64::new(0),
            watches: AtomicU64::new(0),
            ended: AtomicU64::new(0),
            given_up: AtomicU64::new(0),
            behind: AtomicU64::new(0),
            refused: AtomicU64::new(0),
            gone: AtomicU64::new(0),
        }
    }

    pub(crate) fn store(&self, tallied: Tallied) {
        let Tallied {
            connections,
            watches,
            ended,
            given_up,
            behind,
            refused,
            gone,
        } = tallied;
        self.connections.store(connections, Ordering::SeqCst);
        self.watches.store(watches, Ordering::SeqCst);
        self.ended.store(ended, Ordering::SeqCst);
        self.given_up.store(given_up, Ordering::SeqCst);
        self.behind.store(behind, Ordering::SeqCst);
        self.refused.store(refused, Ordering::SeqCst);
        self.gone.store(gone, Ordering::SeqCst);
    }

    /// What the loop has counted by now.
    pub fn load(&self) -> Tallied {
        Tallied {
            connections: self.connections.load(Ordering::SeqCst),
            watches: self.watches.load(Ordering::SeqCst),
            ended: self.ended.load(Ordering::SeqCst),
            given_up: self.given_up.load(Ordering::SeqCst),
            behind: self.behind.load(Ordering::SeqCst),
            refused: self.refused.load(Ordering::SeqCst),
            gone: self.gone.load(Ordering::SeqCst),
        }
    }
}
