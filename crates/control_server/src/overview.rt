use chronicle::{Note, Who};
use control::{Counts, Ended, Expected, OpenNow, Server, SessionTerms, Terms};
use desk_core::{Refusal, Slot};
use live_server::{News, Tally};
use std::sync::Arc;
use std::sync::atomic::{AtomicU64, Ordering};
use watchdog::{Expectations, Wish};

/// What a session sees and asks of the server that runs over the registry.
#[derive(Clone, Copy)]
pub struct Overview<'a> {
    /// What the loops are told.
    pub news: &'a News,
    /// What the loops count.
    pub tallies: &'a [Arc<Tally>],
    /// What sessions expect of services, and the chronicle of their entries.
    pub expectations: &'a Expectations,
    /// The number of the session that is served now.
    pub session: u32,
    /// The wall clock's time, in microseconds since 1970.
    pub micros: u64,
    /// How many sessions there are.
    pub sessions: u64,
    /// What holds for them.
    pub terms: Terms,
    /// Whether they come over TCP.
    pub over_tcp: bool,
    /// Not 0 once a session was told to stop the server.
    pub stops: &'a AtomicU64,
}

impl Overview<'_> {
    /// Takes down that the session makes the entries of this seat from now on.
    pub(crate) fn sit(&self, seat: u16) {
        let who = Who::Session(self.session);
        let chronicle = self.expectations.chronicle();
        chronicle.sit(seat, self.micros, who);
    }
}

/// Contracts see nothing of what it is told: its loops share that.
impl<'a> Server for Overview<'a> {
    ghost use Rattle.std.specs.Prelude.{◌≡◌};

    ghost terms = { λ overview. record { place = overview.terms; over_tcp = overview.over_tcp } };

    ghost counted = { λ overview counts. Unit {0} };

    ghost woken = { λ old new. new ≡ old };

    ghost expected = { λ old new expected. new ≡ old };

    ghost stopped = { λ old new. new ≡ old };

    fn terms(&self) -> SessionTerms {
        SessionTerms {
            place: self.terms,
            over_tcp: self.over_tcp,
        }
    }

    fn counts(&self) -> Counts {
        let (current, ended) = sums_of(self.tallies, self.sessions);
        let vitals = self.expectations.chronicle().vitals();
        Counts {
            current,
            ended,
            expired: self.expectations.expired(),
            writable: if vitals.store_fault().is_some() { 0 } else { 1 },
        }
    }

    fn wake(&mut self) {
        self.news.change();
    }

    fn expect(&mut self, what: Expected) {
        let Expected {
            slot,
            seconds,
            behind,
        } = what;
        self.expectations.expect(slot, Wish { seconds, behind });
        self.news.wake();
    }

    fn note(&self, place: u32) {
        let who = Who::Session(self.session);
        self.expectations.chronicle().note(place, self.micros, who);
    }

    fn noted(&self, place: u32) -> Option<Note> {
        self.expectations.chronicle().noted(place)
    }

    fn refused(&self, refusal: Refusal) {
        let chronicle = self.expectations.chronicle();
        chronicle.refuse(self.micros, Who::Session(self.session), refusal as u8);
    }

    fn seconds(&self, slot: Slot) -> Option<u32> {
        self.expectations.seconds(slot)
    }

    fn stop(&mut self) {
        self.stops.store(1, Ordering::SeqCst);
    }
}

/// What all loops have counted by now, beside so many sessions. A sum stays at its greatest number once it has come to it.
fn sums_of(tallies: &[Arc<Tally>], sessions: u64) -> (OpenNow, Ended) {
    let mut current = OpenNow {
        connections: 0,
        watches: 0,
        sessions,
    };
    let mut ended = Ended {
        calls: 0,
        given_up: 0,
        behind: 0,
        gone: 0,
    };
    for tally in tallies {
        let loaded = tally.load();
        current.connections = current.connections.saturating_add(loaded.connections);
        current.watches = current.watches.saturating_add(loaded.watches);
        ended.calls = ended.calls.saturating_add(loaded.ended);
        ended.given_up = ended.given_up.saturating_add(loaded.given_up);
        ended.behind = ended.behind.saturating_add(loaded.behind);
        ended.gone = ended.gone.saturating_add(loaded.gone);
    }
    (current, ended)
}
