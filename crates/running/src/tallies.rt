use control_server::ControlServer;
use live_run::{Counters, Gauges};
use live_server::{EventServer, Tally};
use std::alloc::{AllocError, Global};
use std::sync::Arc;
use watchdog::Expectations;

/// What tells how much a server holds by these loops and these places for sessions.
pub fn gauges_of(
    alloc: Global,
    servers: &[EventServer],
    control: &Option<ControlServer>,
    report: &Option<ControlServer>,
) -> Result<Gauges, AllocError> {
    let mut sessions = Vec::with_capacity(alloc, 2)?;
    if let Some(server) = control {
        sessions.push(server.tally()?)?;
    }
    if let Some(server) = report {
        sessions.push(server.tally()?)?;
    }
    Ok(Gauges {
        calls: tallies_of(alloc, servers)?,
        sessions,
    })
}

/// What tells plain requests of a server: when it was started, in seconds since 1970, of a history of at most so many entries, what these
/// gauges are of, and what is expected.
pub fn counters_of(
    alloc: Global,
    started: u64,
    most: u32,
    gauges: &Gauges,
    expectations: &Arc<Expectations>,
) -> Result<Arc<Counters>, AllocError> {
    let counters = Counters {
        started,
        most,
        calls: same_tallies(alloc, &gauges.calls)?,
        sessions: same_tallies(alloc, &gauges.sessions)?,
        expectations: expectations.clone()?,
    };
    Ok(Arc::new(alloc, counters)?)
}

fn same_tallies(alloc: Global, tallies: &[Arc<Tally>]) -> Result<Vec<Arc<Tally>>, AllocError> {
    let mut same = Vec::with_capacity(alloc, tallies.len())?;
    for tally in tallies {
        same.push(tally.clone()?)?;
    }
    Ok(same)
}

/// What the loops count while they serve.
pub fn tallies_of(alloc: Global, servers: &[EventServer]) -> Result<Vec<Arc<Tally>>, AllocError> {
    let mut tallies = Vec::with_capacity(alloc, servers.len())?;
    for server in servers {
        tallies.push(server.tally()?)?;
    }
    Ok(tallies)
}
