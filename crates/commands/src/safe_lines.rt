ghost use Rattle.std.specs.Io.{WritesAtMost};

use safe_text::SafeBytes;
use std::alloc::Global;
use std::io;
use std::io::Write;

/// An output for lines that somebody else chose, each of which is written at once with its line feed. What cannot be printed of a line
/// stands there by its number.
#[derive(Drop)]
pub struct SafeLines<O: Write + Drop> {
    alloc: Global,
    output: O,
}

impl<O: Write + Drop> SafeLines<O> {
    pub fn new(alloc: Global, output: O) -> SafeLines<O> {
        SafeLines { alloc, output }
    }
}

impl<O: Write + Drop> Write for SafeLines<O> {
    fn write(&mut self, buf: &[u8]) -> io::Result<usize>
        ensures { WritesAtMost result buf.now }
    {
        let (line, end) = match buf {
            [line @ .., b'\n'] => (line, "\n"),
            line => (line, ""),
        };
        if is_plain(line) {
            self.output.write_all(buf)?;
            return Ok(buf.len());
        }
        let line = SafeBytes(line);
        match format!(in self.alloc; "{line}{end}") {
            Ok(text) => self.output.write_all(text.as_bytes())?,
            // By now a server may have made a change: that it has is told without memory, in pieces.
            Err(_) => write!(self.output, "{line}{end}")?,
        }
        Ok(buf.len())
    }

    fn flush(&mut self) -> io::Result<()> {
        self.output.flush()
    }
}

/// Whether a line has nothing but what every terminal shows as it is.
fn is_plain(line: &[u8]) -> bool {
    line.iter().all(|byte| matches!(byte, b' '..=b'~'))
}
