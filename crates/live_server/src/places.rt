use std::sync::Arc;
use std::sync::atomic::{AtomicU64, Ordering};

/// How much a server holds at once.
#[derive(Clone, Copy)]
pub struct ServerLimits {
    /// The most connections.
    pub connections: usize,
    /// The most open Watches among them.
    pub watches: usize,
}

/// The places of a server for connections, and for open Watches among them. Its loops share them.
#[derive(Drop)]
pub struct Places {
    limits: ServerLimits,
    /// How many places for connections are free.
    connections: AtomicU64,
    /// How many places for Watches are free.
    watches: AtomicU64,
    /// Whether a loop has found no place for a connection, and none was woken since.
    waits: AtomicU64,
}

/// Takes one of so many that are free.
fn take(free: &AtomicU64) -> bool {
    let taken = free.fetch_update(
        Ordering::SeqCst,
        Ordering::SeqCst,
        |free| free.checked_sub(1),
    );
    taken.is_ok()
}

impl Places {
    ghost use Rattle.std.specs.Prelude.{◌≡◌};
    ghost use Rattle.live_server.specs.Places.{limits_of};

    /// All are free.
    pub fn new(limits: ServerLimits) -> Places
        ensures { limits_of result ≡ limits }
    {
        Places {
            limits,
            connections: AtomicU64::new(limits.connections as u64),
            watches: AtomicU64::new(limits.watches as u64),
            waits: AtomicU64::new(0),
        }
    }

    /// Takes a place for a connection, or notes that a loop waits for one.
    fn take_connection(&self) -> bool {
        if take(&self.connections) {
            return true;
        }
        self.waits.store(1, Ordering::SeqCst);
        // One that was given back just before woke nobody.
        take(&self.connections)
    }

    fn give_back(&self, connections: usize, watches: usize) {
        if connections > 0 {
            self.connections
                .fetch_add(connections as u64, Ordering::SeqCst);
        }
        if watches > 0 {
            self.watches.fetch_add(watches as u64, Ordering::SeqCst);
        }
    }

    /// Whether a loop waits for a place for a connection, and one is free. It tells so once.
    fn is_waited_for(&self) -> bool {
        self.waits.load(Ordering::SeqCst) != 0
            && self.connections.load(Ordering::SeqCst) != 0
            && self.waits.swap(0, Ordering::SeqCst) != 0
    }
}

/// A place that was taken for a connection which is not held yet. It can't be let go: it is held, or given back.
pub(crate) struct Vacancy {
    of_connections: (),
}

/// The places that a loop has taken for what it holds. It gives them back when it is dropped.
pub struct Taken {
    places: Arc<Places>,
    limits: ServerLimits,
    connections: usize,
    watches: usize,
}

impl Drop for Taken {
    fn drop(self) {
        let Taken {
            places,
            limits: _,
            connections,
            watches,
        } = self;
        places.give_back(connections, watches);
    }
}

impl Taken {
    ghost use Rattle.std.specs.Prelude.{◌≡◌, ◌+◌, ◌<◌, ◌≤◌, IsTrue, IsFalse};
    ghost use Rattle.std.specs.Arc.{arc_value};
    ghost use Rattle.live_server.specs.Places.{connections_taken, limits_behind, limits_of, taken_with, watches_taken};

    /// None of them yet.
    pub(crate) fn new(places: Arc<Places>) -> Taken
        ensures limits { limits_behind result ≡ limits_of (arc_value places) }
        ensures none { result ≡ taken_with result 0 0 }
    {
        let limits = places.limits;
        Taken {
            places,
            limits,
            connections: 0,
            watches: 0,
        }
    }

    /// How many places there are.
    pub(crate) fn limits(&self) -> ServerLimits
        ensures { result ≡ limits_behind self.now }
    {
        self.limits
    }

    /// Takes a place for a connection. Where none is free, all loops are woken once one is.
    pub(crate) fn connection(&self) -> Option<Vacancy> {
        if self.places.take_connection() {
            Some(Vacancy { of_connections: () })
        } else {
            None
        }
    }

    /// Gives a place back for which no connection is held.
    pub(crate) fn leave(&self, vacancy: Vacancy) {
        let Vacancy { of_connections: () } = vacancy;
        self.places.give_back(1, 0);
    }

    /// A connection has this place, and so many are held with it.
    pub(crate) fn hold(&mut self, vacancy: Vacancy, connections: usize)
        requires one_more { connections ≡ connections_taken self.old + 1 }
        ensures { self.new ≡ taken_with self.old connections (watches_taken self.old) }
    {
        let Vacancy { of_connections: () } = vacancy;
        self.connections = connections;
    }

    /// Takes a place for an open Watch, if one is free.
    pub(crate) fn watch(&mut self) -> bool
        ensures few { IsTrue result → watches_taken self.old < (limits_behind self.old).watches }
        ensures taken { IsTrue result → self.new ≡ taken_with self.old (connections_taken self.old) (watches_taken self.old + 1) }
        ensures none { IsFalse result → self.new ≡ self.old }
    {
        if self.watches >= self.limits.watches || !take(&self.places.watches) {
            return false;
        }
        self.watches += 1;
        true
    }

    /// Gives back the places of all but so many connections and Watches.
    pub(crate) fn keep(&mut self, connections: usize, watches: usize)
        requires connections { connections ≤ connections_taken self.old }
        requires watches { watches ≤ watches_taken self.old }
        ensures { self.new ≡ taken_with self.old connections watches }
    {
        self.places
            .give_back(self.connections - connections, self.watches - watches);
        self.connections = connections;
        self.watches = watches;
    }

    /// Whether a loop waits for a place for a connection, and one is free. It tells so once.
    pub(crate) fn is_waited_for(&self) -> bool {
        self.places.is_waited_for()
    }
}
