ghost use Rattle.std.specs.Prelude.{◌<◌, ◌^◌, IfSome};

use std::io;
use std::time::{Clock, Instant};

/// The last reading that is told: 140 million years.
const LAST: u128 = 0x3fff_ffff_ffff_ffff;

/// Milliseconds since it was made.
#[derive(Clone, Copy)]
pub(crate) struct Stopwatch {
    start: Instant,
}

impl Stopwatch {
    pub(crate) fn new<C: Clock>(clock: &C) -> io::Result<Stopwatch> {
        Ok(Stopwatch {
            start: Instant::now(clock)?,
        })
    }

    /// None where the clock cannot be read.
    pub(crate) fn millis<C: Clock>(&self, clock: &C) -> Option<u64>
        ensures { IfSome result (λ millis. millis < 2 ^ 63) }
    {
        let now = Instant::now(clock).ok()?;
        let millis = now.saturating_duration_since(self.start).as_millis();
        Some(millis.min(LAST) as u64)
    }
}
