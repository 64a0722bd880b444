//! One line over a connection to a control place, and its answer.

use control::{AnswerFault, ControlClient, is_one_line, is_turned_away, tell};
use std::alloc::Global;
use std::io::{ErrorKind, Read};
use std::time::Duration;

/// How many milliseconds a connection is looked at before a line is sent, to see whether the server has closed it.
const GLANCE_MILLIS: u64 = 1;

/// The line that reports it.
pub(crate) fn line_of(alloc: Global, name: &str, passes: bool) -> Option<Vec<u8>> {
    let word: &[u8] = if passes { b"pass " } else { b"fail " };
    let mut line = Vec::from_slice(alloc, word).ok()?;
    line.extend_from_slice(name.as_bytes()).ok()?;
    Some(line)
}

/// Whether a server still listens behind the connection. It says nothing unasked, unless it closes the connection.
pub(crate) fn is_open(client: &ControlClient) -> bool {
    if client
        .set_read_timeout(Some(Duration::from_millis(GLANCE_MILLIS)))
        .is_err()
    {
        return false;
    }
    let mut reader = client;
    let mut byte = [0u8; 1];
    match reader.read(&mut byte) {
        Ok(_) => false,
        Err(error) => match error.kind() {
            ErrorKind::WouldBlock | ErrorKind::TimedOut => true,
            _ => false,
        },
    }
}

/// The answer to the line, or the kind of error that the connection is lost by.
pub(crate) fn answer_to(
    alloc: Global,
    client: &ControlClient,
    patience: Duration,
    line: &[u8],
) -> Result<Vec<u8>, ErrorKind> {
    if !is_one_line(line) {
        return Err(ErrorKind::InvalidInput);
    }
    if client.set_read_timeout(Some(patience)).is_err() {
        return Err(ErrorKind::InvalidInput);
    }
    let mut reader = client;
    let mut writer = client;
    match tell(alloc, &mut reader, &mut writer, line) {
        Ok(Some(answer)) if is_turned_away(&answer) => Err(ErrorKind::QuotaExceeded),
        Ok(Some(answer)) => Ok(answer),
        Ok(None) => Err(ErrorKind::InvalidInput),
        Err(fault) => Err(kind_of(fault)),
    }
}

fn kind_of(fault: AnswerFault) -> ErrorKind {
    match fault {
        AnswerFault::Write(error) | AnswerFault::Read(error) => error.kind(),
        AnswerFault::NoAnswer => ErrorKind::UnexpectedEof,
        AnswerFault::TooLong => ErrorKind::InvalidData,
        _ => ErrorKind::OutOfMemory,
    }
}
