ghost use Rattle.std.specs.Net.Text.{socket_text};
ghost use Rattle.std.specs.Prelude.{◌≡◌, ◌++◌, IfOk, codes, string_bytes};
ghost use Rattle.control.specs.Place.{place_text};

use crate::listening::Listening;
use crate::run_failure::{RunFailure, failure_by};
use control::{ControlListener, Place};
use std::alloc::{AllocError, Global};
use std::net::SocketAddr;

/// The lines that tell where a run listens, as far as it does.
pub type ListeningLines = [Option<String>; 4];

/// The lines of these sockets: of calls first, then of plain requests, and of the places for sessions.
pub fn lines_of<'a>(
    alloc: Global,
    listening: &Listening,
) -> Result<ListeningLines, RunFailure<'a>> {
    let calls = listening_line(alloc, listening.address)?;
    let plain = plain_line(alloc, listening.plain_address)?;
    let control = place_line(alloc, "control", &listening.control)?;
    let report = place_line(alloc, "report", &listening.report)?;
    Ok([Some(calls), plain, control, report])
}

/// Prints the lines that there are, in their order.
pub(crate) fn print_lines<'a, R: Print>(
    rt: &R,
    lines: &ListeningLines,
) -> Result<(), RunFailure<'a>> {
    for line in lines.iter().flatten() {
        print_line(rt, line)?;
    }
    Ok(())
}

/// Prints a line of a run.
pub(crate) fn print_line<'a, R: Print>(rt: &R, line: &str) -> Result<(), RunFailure<'a>> {
    match println!(rt; "{line}") {
        Ok(()) => Ok(()),
        Err(error) => Err(failure_by(error, RunFailure::Write)),
    }
}

/// The line that tells where calls are answered.
pub fn listening_line(alloc: Global, addr: SocketAddr) -> Result<String, AllocError>
    ensures { IfOk result (λ line. string_bytes line ≡ codes "listening " ++ socket_text addr) }
{
    format!(in alloc; "listening {addr}")
}

/// The line that tells where plain requests are answered, if they are.
fn plain_line(alloc: Global, address: Option<SocketAddr>) -> Result<Option<String>, AllocError> {
    match address {
        Some(address) => Ok(Some(format!(in alloc; "plain {address}")?)),
        None => Ok(None),
    }
}

/// The line that tells where sessions are held, if they are, behind this word.
fn place_line<'a>(
    alloc: Global,
    word: &str,
    listener: &Option<ControlListener>,
) -> Result<Option<String>, RunFailure<'a>> {
    let Some(listener) = listener else {
        return Ok(None);
    };
    match listener.place() {
        Ok(place) => Ok(Some(session_line(alloc, word, place)?)),
        Err(error) => Err(failure_by(error, RunFailure::EventLoop)),
    }
}

/// The line that tells where sessions are held.
fn session_line(alloc: Global, word: &str, place: Place<'_>) -> Result<String, AllocError>
    ensures { IfOk result (λ line. string_bytes line ≡ word.now ++ codes " " ++ place_text
        place.entry) }
{
    format!(in alloc; "{word} {place}")
}
