use crate::meter::Meter;
use chronicle::Vitals;
use desk_core::{Refusal, Slot};
use live_server::Tally;
use plain::{Figures, Refused};
use std::sync::Arc;
use watchdog::Expectations;

const MICROS_A_SECOND: u64 = 1_000_000;

/// What counts what a server holds and has done, for plain requests to tell.
#[derive(Drop)]
pub struct Counters {
    /// When it was started, in seconds since 1970.
    pub started: u64,
    /// The most entries of its history.
    pub most: u32,
    /// What the loops that answer calls count.
    pub calls: Vec<Arc<Tally>>,
    /// What those of the places for sessions count.
    pub sessions: Vec<Arc<Tally>>,
    /// What is expected to be heard, and the chronicle of what was.
    pub expectations: Arc<Expectations>,
}

impl Meter for Counters {
    /// Each sum stays at its greatest number once it has come to it.
    fn read(&self) -> Figures {
        let vitals = self.expectations.chronicle().vitals();
        let mut figures = Figures {
            started: self.started,
            most: self.most,
            is_writable: vitals.store_fault().is_none(),
            connections: 0,
            watches: 0,
            sessions: held_by(&self.sessions),
            calls: 0,
            given_up: 0,
            gone: 0,
            behind: 0,
            refused_watches: 0,
            expired: self.expectations.expired(),
            refused: refused_by(vitals),
            reported: reported_by(vitals),
            expected: expected_by(&self.expectations),
        };
        for tally in &self.calls {
            let loaded = tally.load();
            figures.connections = figures.connections.saturating_add(loaded.connections);
            figures.watches = figures.watches.saturating_add(loaded.watches);
            figures.calls = figures.calls.saturating_add(loaded.ended);
            figures.given_up = figures.given_up.saturating_add(loaded.given_up);
            figures.gone = figures.gone.saturating_add(loaded.gone);
            figures.behind = figures.behind.saturating_add(loaded.behind);
            figures.refused_watches = figures.refused_watches.saturating_add(loaded.refused);
        }
        figures
    }
}

/// How many changes were refused, by cause.
fn refused_by(vitals: &Vitals) -> Refused {
    Refused {
        bad_rule: vitals.refusals(Refusal::BadRule as u8),
        full: vitals.refusals(Refusal::Full as u8),
        no_memory: vitals.refusals(Refusal::NoMemory as u8),
        not_listed: vitals.refusals(Refusal::NotListed as u8),
        not_stored: vitals.refusals(Refusal::NotStored as u8),
    }
}

/// When each service was reported last, in seconds since 1970.
fn reported_by(vitals: &Vitals) -> [u64; 16] {
    let mut reported = [0; 16];
    for (index, seconds) in reported.iter_mut().enumerate() {
        *seconds = vitals.reported(number_of(index)).unwrap_or(0) / MICROS_A_SECOND;
    }
    reported
}

/// Every how many seconds each service has to be heard from.
fn expected_by(expectations: &Expectations) -> [u64; 16] {
    let mut expected = [0; 16];
    for (index, seconds) in expected.iter_mut().enumerate() {
        if let Some(slot) = Slot::new(number_of(index)) {
            *seconds = u64::from(expectations.seconds(slot).unwrap_or(0));
        }
    }
    expected
}

/// The number of the slot at an index.
fn number_of(index: usize) -> u8 {
    u8::try_from(index).unwrap_or(u8::MAX)
}

/// How many connections these loops have.
fn held_by(tallies: &[Arc<Tally>]) -> u64 {
    let mut held: u64 = 0;
    for tally in tallies {
        held = held.saturating_add(tally.load().connections);
    }
    held
}
