ghost use Rattle.std.specs.Prelude.{◌≡◌, ◌≤◌, ◌+◌, [], vec_len, vec_capacity, IfOk, OnErr, OnOk};
ghost use Rattle.std.specs.Io.KnownBytes.{Consumes};
ghost use Rattle.control.specs.Line.{IsPartOfLine, IsReadTo};

use crate::line::MAX_LINE_LEN;
use crate::line_end::LineEnd;
use std::io;
use std::io::Read;

/// Reads a line without its line feed, a byte with each call of `read`, and nothing behind it. After an error the line has what was read
/// of it. An `Interrupted` is an error too.
pub fn read_line<R: Read>(reader: &mut R, line: &mut Vec<u8>) -> io::Result<LineEnd>
    requires empty { line.old.items ≡ [] }
    requires room { MAX_LINE_LEN + 1 ≤ vec_capacity line.old }
    ensures part { IsPartOfLine line.new.items }
    ensures ok { IfOk result (IsReadTo (R.remaining reader.old) (R.remaining reader.new) line.new.items) }
    ensures err { OnErr result (Consumes (R.remaining reader.old) (R.remaining reader.new) line.new.items) }
    ensures short { OnErr result (vec_len line.new ≤ MAX_LINE_LEN) }
    ensures capacity { vec_capacity line.old ≤ vec_capacity line.new }
{
    while line.len() <= MAX_LINE_LEN {
        let mut byte = [0u8; 1];
        if reader.read(&mut byte)? == 0 {
            return Ok(LineEnd::Input);
        }
        if byte[0] == b'\n' {
            return Ok(LineEnd::LineFeed);
        }
        line.push(byte[0]).unwrap();
    }
    Ok(LineEnd::TooLong)
}
