//! When connections that wait are accepted.

use crate::same::same;
use live_server::Queue;
use std::io::ErrorKind;
use std::time::Instant;

/// What may wait behind an accept that failed so. Others are tried again later.
static FAILURES: [(ErrorKind, Queue); 3] = [
    (ErrorKind::WouldBlock, Queue::Empty),
    (ErrorKind::Interrupted, Queue::Waiting),
    (ErrorKind::ConnectionAborted, Queue::Waiting),
];

#[test]
fn some_failures_of_an_accept_are_no_reason_to_wait(rt: HostRuntime) {
    let now = Instant::now(&rt).expect(&rt, "a reading");
    for (kind, expected) in &FAILURES {
        same(&rt, &Queue::behind(*kind, now), expected, &kind);
    }
}
