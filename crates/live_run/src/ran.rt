use crate::watchdog_loop::WatchdogLoop;
use control_server::ControlServer;
use desk_core::{Desk, Keep, KeepAll, board_entries};
use live_server::EventServer;
use probe_core::Probe;

/// What a server has beside the loops over calls: the loops over sessions, those of its control place and those of its report place, as
/// far as it has these places, and the watchdog over what is expected to be heard.
#[derive(Drop)]
pub struct SessionPlaces {
    pub control: Option<ControlServer>,
    pub report: Option<ControlServer>,
    pub watchdog: Option<WatchdogLoop>,
}

impl SessionPlaces {
    /// How many threads these want beside those of the loops over calls.
    pub(crate) fn threads(&self) -> u64 {
        let has_control = u64::from(self.control.is_some());
        let has_report = u64::from(self.report.is_some());
        let has_watchdog = u64::from(self.watchdog.is_some());
        has_control + has_report + has_watchdog
    }
}

/// What is left of a hall that was run to its end.
#[derive(Drop)]
pub struct Ran<P: Probe, K: Keep = KeepAll> {
    /// The loops, which tell how many calls they have served.
    pub servers: Vec<EventServer>,
    /// The loops over sessions, if there were any. The files of their sockets still stand.
    pub places: SessionPlaces,
    /// The registry that the hall had.
    pub desk: Desk<P, K>,
}

impl<P: Probe, K: Keep> Ran<P, K> {
    ghost use Rattle.std.specs.Prelude.{◌≡◌, length};

    /// How many entries the whole history has, be they kept or forgotten.
    pub fn entries(&self) -> u32
        ensures { result ≡ length self.now.desk.journal }
    {
        board_entries(self.desk.board())
    }
}
