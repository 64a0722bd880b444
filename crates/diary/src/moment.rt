use chronicle::{TimeText, time_text, wall_micros};
use std::time::Clock;

/// When lines are written.
#[derive(Clone, Copy)]
pub(crate) struct Moment {
    /// A monotone clock's reading, in milliseconds.
    pub(crate) millis: u64,
    /// The wall clock's time, in microseconds since 1970.
    pub(crate) micros: u64,
}

impl Moment {
    /// Before any clock was read.
    pub(crate) const START: Moment = Moment {
        millis: 0,
        micros: 0,
    };

    /// Now. Where a monotone clock cannot be read, it stands still.
    pub(crate) fn after<C: Clock>(self, clock: &C) -> Moment {
        let millis = match clock.monotonic() {
            Ok(since) => u64::try_from(since.as_millis()).unwrap_or(u64::MAX),
            Err(_) => self.millis,
        };
        Moment {
            millis,
            micros: wall_micros(clock),
        }
    }

    /// The wall clock's time.
    pub(crate) fn time(self) -> TimeText {
        time_text(self.micros)
    }
}
