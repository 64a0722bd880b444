ghost use Rattle.std.specs.Prelude.{◌≡◌, IfOk, IfErr, OnOk};
ghost use Rattle.std.specs.Option.{option_map};
ghost use Rattle.std.specs.Io.KnownBytes.{Appends};
ghost use Rattle.control.specs.Line.{IsPartOfLine, IsSilent, ended};
ghost use Rattle.control.specs.Tell.{IsAnswer, IsAnswered, IsAnswerFault};

use crate::answer_fault::AnswerFault;
use crate::line::{LINE_ROOM, is_silent};
use crate::line_end::LineEnd;
use crate::reading::read_line;
use crate::sending::send;
use std::alloc::{AllocError, Global};
use std::io::{Read, Write};

/// Sends a line, and reads the line that answers it. A server does not answer a line without a byte.
///
/// The line is written whole, with its line feed, and flushed before anything is read. The answer is read with a call of `read` for each
/// byte: a reader for which calls are dear has to be buffered.
pub fn tell<R: Read, W: Write>(
    alloc: Global,
    reader: &mut R,
    writer: &mut W,
    line: &[u8],
) -> Result<Option<Vec<u8>>, AnswerFault>
    requires one_line { IsPartOfLine line.now }
    ensures sent { OnOk result (Appends (W.contents writer.old) (W.contents writer.new) (ended line.now)) }
    ensures answered { IfOk result (λ answer. IsAnswered line.now (R.remaining reader.old) (R.remaining reader.new) (option_map (λ text. text.items) answer)) }
    ensures fault { IfErr result (IsAnswerFault line.now (W.contents writer.old) (W.contents writer.new) (R.remaining reader.old) (R.remaining reader.new)) }
{
    let text = with_line_feed(alloc, line)?;
    let mut answer = Vec::with_capacity(alloc, LINE_ROOM)?;
    if let Err(error) = send(writer, &text) {
        return Err(AnswerFault::Write(error));
    }
    if is_silent(line) {
        return Ok(None);
    }
    match read_line(reader, &mut answer) {
        Ok(LineEnd::LineFeed) => Ok(Some(answer)),
        Ok(LineEnd::Input) => Err(AnswerFault::NoAnswer),
        Ok(LineEnd::TooLong) => Err(AnswerFault::TooLong),
        Err(error) => Err(AnswerFault::Read(error)),
    }
}

fn with_line_feed(alloc: Global, line: &[u8]) -> Result<Vec<u8>, AllocError>
    ensures { IfOk result (λ text. text.items ≡ ended line.now) }
{
    let mut text = Vec::from_slice(alloc, line)?;
    text.push(b'\n')?;
    Ok(text)
}
