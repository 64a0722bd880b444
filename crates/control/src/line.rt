ghost use Rattle.std.specs.Prelude.{◌↔◌, IsTrue};
ghost use Rattle.control.specs.Line.{IsPartOfLine, IsSilent};

/// The most bytes of a line, without its line feed.
pub const MAX_LINE_LEN: usize = 65_536;

/// The capacity that a line needs while it is read.
pub const LINE_ROOM: usize = MAX_LINE_LEN + 1;

/// Whether the bytes can stand in one line.
pub fn is_one_line(bytes: &[u8]) -> bool
    ensures { IsTrue result ↔ IsPartOfLine bytes.now }
{
    bytes.iter().all(|byte| *byte != b'\n')
}

/// Whether a server does not answer the line, since it has no byte before CR LF or LF.
pub fn is_silent(line: &[u8]) -> bool
    ensures { IsTrue result ↔ IsSilent line.now }
{
    line.is_empty() || line == b"\r".as_slice()
}
