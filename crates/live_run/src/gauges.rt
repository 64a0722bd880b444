use diary::Held;
use live_server::Tally;
use std::sync::Arc;

/// What tells how much a server holds: what its loops count while they serve.
#[derive(Drop)]
pub struct Gauges {
    /// Those of the loops that answer calls.
    pub calls: Vec<Arc<Tally>>,
    /// Those of the places for sessions.
    pub sessions: Vec<Arc<Tally>>,
}

impl Gauges {
    /// How much is held by now.
    pub(crate) fn held(&self) -> Held {
        let (connections, watches) = sums_of(&self.calls);
        Held {
            connections,
            watches,
            sessions: most_of(&self.sessions),
        }
    }
}

/// How many connections these loops have, and how many Watches.
fn sums_of(tallies: &[Arc<Tally>]) -> (u32, u32) {
    let mut connections: u32 = 0;
    let mut watches: u32 = 0;
    for tally in tallies {
        let loaded = tally.load();
        connections = connections.saturating_add(number_of(loaded.connections));
        watches = watches.saturating_add(number_of(loaded.watches));
    }
    (connections, watches)
}

/// How many connections the loop has that has most of them.
fn most_of(tallies: &[Arc<Tally>]) -> u32 {
    let mut most: u32 = 0;
    for tally in tallies {
        most = most.max(number_of(tally.load().connections));
    }
    most
}

fn number_of(count: u64) -> u32 {
    u32::try_from(count).unwrap_or(u32::MAX)
}
