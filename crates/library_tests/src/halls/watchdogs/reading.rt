use std::io;
use std::time::{Clock, Duration};

/// A clock that stands still at so many milliseconds.
#[derive(Drop)]
pub(crate) struct At(pub(crate) u64);

impl Clock for At {
    fn monotonic(&self) -> io::Result<Duration> {
        Ok(Duration::from_millis(self.0))
    }

    fn since_1970(&self) -> io::Result<Duration> {
        self.monotonic()
    }
}
