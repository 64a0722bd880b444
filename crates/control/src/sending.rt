ghost use Rattle.std.specs.Prelude.{OnOk, OnErr};
ghost use Rattle.std.specs.Io.KnownBytes.{Appends};
ghost use Rattle.control.specs.Tell.{AppendsFront};

use std::io;
use std::io::{ErrorKind, Write};

/// Writes the whole text and flushes it. An error of any kind ends it at once, `Interrupted` too.
pub(crate) fn send<W: Write>(writer: &mut W, text: &[u8]) -> io::Result<()>
    ensures ok { OnOk result (Appends (W.contents writer.old) (W.contents writer.new) text.now) }
    ensures err { OnErr result (AppendsFront (W.contents writer.old) (W.contents writer.new) text.now) }
{
    let mut taken = 0;
    while taken < text.len() {
        let count = writer.write(&text[taken..])?;
        if count == 0 {
            return Err(io::Error::from(ErrorKind::WriteZero));
        }
        taken += count;
    }
    writer.flush()
}
