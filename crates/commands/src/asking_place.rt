//! Questions to a server at its control place, and what their answers are printed as.

ghost use Rattle.std.specs.Prelude.{OnOk, string_bytes};
ghost use Rattle.std.specs.Io.KnownBytes.{Appends, Keeps};
ghost use Rattle.control.specs.Line.{ended};

use crate::show_failure::ShowFailure;
use crate::tell::HTTP;
use crate::tell_failure::{TellFailure, failure_at};
use crate::timed_control::{AnswerTime, TimedControl};
use control::{
    AnswerFault, Cause, ControlClient, LINE_ROOM, LineEnd, Place, connect_within, is_one_line,
    is_turned_away, read_line, tell,
};
use std::alloc::Global;
use std::io;
use std::io::{BufReader, ErrorKind, Read, Write};
use std::net::{Net, TcpStream};
use std::time::{Clock, Duration};

/// A session that asks: its writer takes lines, and its reader has their answers.
#[derive(Drop)]
pub struct AskingPlace<'a, R: Read + Drop, W: Write + Drop> {
    alloc: Global,
    place: Place<'a>,
    reader: R,
    writer: W,
}

impl<'a, R: Read + Drop, W: Write + Drop> AskingPlace<'a, R, W> {
    pub fn new(alloc: Global, place: Place<'a>, reader: R, writer: W) -> AskingPlace<'a, R, W> {
        AskingPlace {
            alloc,
            place,
            reader,
            writer,
        }
    }

    /// Where the texts of answers are.
    pub fn alloc(&self) -> Global {
        self.alloc
    }

    /// The answer to a line. A text with a line feed is no line, and has none.
    pub fn ask(&mut self, line: &str) -> Result<String, ShowFailure<'a>> {
        let bytes = line.as_bytes();
        if !is_one_line(bytes) {
            return Err(ShowFailure::Ended);
        }
        match tell(self.alloc, &mut self.reader, &mut self.writer, bytes) {
            Ok(Some(answer)) => self.text_of(answer),
            Ok(None) => Err(ShowFailure::Ended),
            Err(fault) => Err(self.failure_of(fault)),
        }
    }

    /// The failure of an answer that is none to what was asked.
    pub fn unexpected(&self, answer: String) -> ShowFailure<'a> {
        ShowFailure::Answered(self.place, answer)
    }

    fn text_of(&self, answer: Vec<u8>) -> Result<String, ShowFailure<'a>> {
        if is_turned_away(&answer) {
            return Err(ShowFailure::Told(TellFailure::TurnedAway));
        }
        if answer.starts_with(HTTP) {
            return Err(ShowFailure::Told(TellFailure::Http(self.place)));
        }
        match String::from_utf8(answer) {
            Ok(text) => Ok(text),
            Err(_) => Err(ShowFailure::NoText(self.place)),
        }
    }

    fn failure_of(&mut self, fault: AnswerFault) -> ShowFailure<'a> {
        if has_ended(fault) {
            return self.end();
        }
        ShowFailure::from(failure_at(self.place, fault))
    }

    /// Why the server ended the session: one that turns it away says so before.
    fn end(&mut self) -> ShowFailure<'a> {
        let Ok(mut line) = Vec::with_capacity(self.alloc, LINE_ROOM) else {
            return ShowFailure::Told(TellFailure::OutOfMemory);
        };
        let end = read_line(&mut self.reader, &mut line);
        if matches!(end, Ok(LineEnd::LineFeed)) && is_turned_away(&line) {
            return ShowFailure::Told(TellFailure::TurnedAway);
        }
        ShowFailure::Ended
    }
}

/// Whether the line has no answer since the server ended the session.
fn has_ended(fault: AnswerFault) -> bool {
    match fault {
        AnswerFault::NoAnswer => true,
        AnswerFault::Write(error) | AnswerFault::Read(error) => matches!(
            error.kind(),
            ErrorKind::BrokenPipe | ErrorKind::ConnectionReset
        ),
        AnswerFault::TooLong | AnswerFault::OutOfMemory => false,
    }
}

/// Connects to a server's control place, and waits no longer than this for it.
pub(crate) fn connect_to<'a, R: Net<Stream = TcpStream>>(
    rt: &R,
    place: Place<'a>,
    timeout: Duration,
) -> Result<ControlClient, ShowFailure<'a>> {
    match connect_within(rt, place, timeout) {
        Ok(client) => Ok(client),
        Err(error) => {
            let cause = Cause::from(error);
            Err(ShowFailure::Told(TellFailure::Connect(place, cause)))
        }
    }
}

/// A session over a connection, both of whose sides have the same time for an answer.
pub(crate) type TimedPlace<'a, 'c, C> = AskingPlace<
    'a,
    BufReader<TimedControl<'c, C>>,
    TimedControl<'c, C>,
>;

/// A session over this connection, with this time for each answer.
pub(crate) fn asking_over<'a, 'c, C: Clock>(
    clock: &'c C,
    alloc: Global,
    place: Place<'a>,
    client: &'c ControlClient,
    time: &'c AnswerTime,
) -> Result<TimedPlace<'a, 'c, C>, ShowFailure<'a>> {
    match BufReader::new(alloc, TimedControl::new(clock, client, time)) {
        Ok(reader) => {
            let writer = TimedControl::new(clock, client, time);
            Ok(AskingPlace::new(alloc, place, reader, writer))
        }
        Err(_) => Err(ShowFailure::Told(TellFailure::OutOfMemory)),
    }
}

/// Prints a line, which need not be seen before a flush.
pub(crate) fn print_line<'a, O: Write>(output: &mut O, line: String) -> Result<(), ShowFailure<'a>>
    ensures { OnOk result (Appends (O.contents output.old) (O.contents output.new) (ended (string_bytes line))) }
{
    let mut bytes = line.into_bytes();
    bytes.push(b'\n')?;
    match output.write_all(&bytes) {
        Ok(()) => Ok(()),
        Err(error) => Err(unwritten(error)),
    }
}

/// Prints a text, which is seen then.
pub(crate) fn print_text<'a, O: Write>(output: &mut O, text: &str) -> Result<(), ShowFailure<'a>>
    ensures { OnOk result (Appends (O.contents output.old) (O.contents output.new) text.now) }
{
    if let Err(error) = output.write_all(text.as_bytes()) {
        return Err(unwritten(error));
    }
    flush(output)
}

/// Whatever was printed is seen now.
pub(crate) fn flush<'a, O: Write>(output: &mut O) -> Result<(), ShowFailure<'a>>
    ensures { OnOk result (Keeps (O.contents output.old) (O.contents output.new)) }
{
    match output.flush() {
        Ok(()) => Ok(()),
        Err(error) => Err(unwritten(error)),
    }
}

fn unwritten<'a>(error: io::Error) -> ShowFailure<'a> {
    ShowFailure::Told(TellFailure::Write(Cause::from(error)))
}
