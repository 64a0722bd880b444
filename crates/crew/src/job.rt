use std::io::{Read, Write};

/// A job that could not be opened. Nothing was answered.
#[derive(Clone, Copy, Debug)]
pub struct Unopened;

/// A call that waits to be served. It may wait where it is opened, and keeps what it needs for that.
///
/// When the call has ended, and before it leaves the turnstile, both of its ends are dropped: the output before the input, so that
/// a response ends before its connection is let go.
///
/// Where threads are started, the job and its two ends have to be `Send`; the trait itself doesn't ask for it.
pub trait Job: Drop {
    /// What the request is read from.
    type Input: Read + Drop;

    /// What the response is written to.
    type Output: Write + Drop;

    /// The two ends of the call.
    fn open(self) -> Result<(Self::Input, Self::Output), Unopened>;
}
