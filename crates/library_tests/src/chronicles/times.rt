//! The wall clock.

use crate::same::same;
use chronicle::wall_micros;
use std::io;
use std::time::{Clock, Duration};

/// A clock that stands still, or cannot be read.
#[derive(Drop)]
struct At(Option<Duration>);

impl Clock for At {
    fn monotonic(&self) -> io::Result<Duration> {
        Err(io::ErrorKind::Unsupported.into())
    }

    fn since_1970(&self) -> io::Result<Duration> {
        self.0.ok_or(io::ErrorKind::Unsupported.into())
    }
}

#[test]
fn reads_the_wall_clock_in_microseconds(rt: HostRuntime) {
    let then = At(Some(Duration::new(1_795_657_509, 123_456_789)));
    same(
        &rt,
        &wall_micros(&then),
        &1_795_657_509_123_456,
        &"cut to the microsecond",
    );
    let last = At(Some(Duration::from_secs(u64::MAX)));
    same(&rt, &wall_micros(&last), &u64::MAX, &"no later time");
    same(&rt, &wall_micros(&At(None)), &0, &"not read");
}
