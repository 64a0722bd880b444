ghost use Rattle.std.specs.Prelude.{◌≡◌, ◌⊎◌, ◌↔◌, IfOk, IsTrue};
ghost use Rattle.std.specs.declared.io.ErrorKind.{ErrorKind};

use crate::deadline::Deadline;
use crate::expect::{DONE, UNMET};
use crate::tell::run_line;
use crate::tell_failure::TellFailure;
use control::{Cause, Place, connect_within};
use std::io::ErrorKind;
use std::net::{Net, TcpStream};
use std::thread;
use std::time::{Clock, Duration};

/// How many milliseconds pass from one look at the place to the next.
const LOOK_MILLIS: u64 = 20;

/// The command `stop`: tells the server at a control place to stop, and waits until nobody listens there any more. It tells the exit
/// status, which says whether that came in time.
pub fn run_stop<'a, R>(rt: &R, place: Place<'a>, timeout: Duration) -> Result<u8, TellFailure<'a>>
where
    R: Print + Eprint + Clock + AllocGlobal + Net<Stream = TcpStream>,
    ensures one_of_two { IfOk result (λ status. (status ≡ 0) ⊎ (status ≡ 3)) }
{
    let end = match Deadline::after(rt, timeout) {
        Ok(end) => end,
        Err(error) => return Err(TellFailure::Connect(place, Cause::from(error))),
    };
    match run_line(rt, place, timeout, b"stop") {
        // It may have been stopping before.
        Ok(DONE) | Err(TellFailure::NoAnswer) => Ok(await_end(rt, place, end)),
        Err(TellFailure::TimedOut(_)) => Ok(late(rt)),
        told => told,
    }
}

/// Waits until nobody listens at a place, and tells the exit status.
fn await_end<R: Eprint + Clock + Net<Stream = TcpStream>>(
    rt: &R,
    place: Place<'_>,
    end: Deadline,
) -> u8
    ensures { (result ≡ 0) ⊎ (result ≡ 3) }
{
    for _ in 0..u64::MAX {
        let Ok(left) = end.left(rt) else {
            return late(rt);
        };
        if let Err(error) = connect_within(rt, place, left) {
            if is_nobody(error.kind()) {
                return DONE;
            }
        }
        thread::sleep(rt, Duration::from_millis(LOOK_MILLIS));
    }
    late(rt)
}

/// Whether a connection that fails so shows that nobody listens.
fn is_nobody(kind: ErrorKind) -> bool
    ensures { IsTrue result ↔ ((kind ≡ ErrorKind.ConnectionRefused) ⊎ (kind ≡ ErrorKind.NotFound)) }
{
    matches!(kind, ErrorKind::ConnectionRefused | ErrorKind::NotFound)
}

/// Tells standard error that the time was up.
fn late<R: Eprint>(rt: &R) -> u8
    ensures { result ≡ 3 }
{
    let _ = eprintln!(rt; "healthd: timed out, the server may still stop");
    UNMET
}
