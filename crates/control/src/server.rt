use crate::expected::Expected;
use crate::session_terms::SessionTerms;
use crate::stats::Counts;
use chronicle::Note;
use desk_core::{Refusal, Slot};

/// The server that runs over a registry, as a session sees it.
///
/// `terms` are those that hold for its sessions, whatever it is told. `woken` says that it was told, once, that a status changed,
/// `expected` that it was told, once, what is expected of a service, `stopped` that it was told to end,
/// and `counted` that it counts so.
pub trait Server {
    ghost use Rattle.std.specs.Prelude.{◌≡◌};
    ghost use Rattle.control.specs.declared.expected.Expected.{Expected};
    ghost use Rattle.control.specs.declared.stats.Counts.{Counts};
    ghost use Rattle.control.specs.declared.session_terms.SessionTerms.{SessionTerms};

    ghost terms: { Self → SessionTerms };

    ghost counted: { Self → Counts → Type 0 };

    ghost woken: { Self → Self → Type 0 };

    ghost expected: { Self → Self → Expected → Type 0 };

    ghost stopped: { Self → Self → Type 0 };

    /// What holds for its sessions.
    fn terms(&self) -> SessionTerms
        ensures { result ≡ terms self.now };

    /// What it counts of connections, calls and expiries.
    fn counts(&self) -> Counts
        ensures { counted self.now result };

    /// Tells it that a status changed.
    fn wake(&mut self)
        ensures woken { woken self.old self.new }
        ensures terms { terms self.new ≡ terms self.old };

    /// Tells it what is expected of a service.
    fn expect(&mut self, what: Expected)
        ensures expected { expected self.old self.new what }
        ensures terms { terms self.new ≡ terms self.old };

    /// Tells it that the session that it serves now made the entry at this place. Nothing depends on it but what is told of the entry.
    fn note(&self, place: u32);

    /// What it was told of the entry at this place, where it still knows.
    fn noted(&self, place: u32) -> Option<Note>;

    /// Tells it that a change was refused to the session that it serves now.
    fn refused(&self, refusal: Refusal);

    /// How often a service is to be reported, in seconds, if it is expected to be.
    fn seconds(&self, slot: Slot) -> Option<u32>;

    /// Tells it to end.
    fn stop(&mut self)
        ensures stopped { stopped self.old self.new }
        ensures terms { terms self.new ≡ terms self.old };
}
