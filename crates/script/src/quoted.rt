ghost use Rattle.std.specs.Prelude.{chars};
ghost use Rattle.std.specs.Fmt.{WritesOnOk};
ghost use Rattle.script.specs.Quoted.{shown, shown_char};

use std::fmt;

/// The most characters of a text that are shown.
const MAX_SHOWN: u32 = 200;

/// A text in quotes and on one line, as a message has it: a control character stands there by its number, and `..` for all behind the
/// first 200 characters.
#[derive(Clone, Copy)]
pub(crate) struct Quoted<'a>(pub(crate) &'a str);

impl fmt::Display for Quoted<'_> {
    ghost use Rattle.std.specs.Prelude.{Some};
    ghost use Rattle.script.specs.Quoted.{quoted};

    ghost output = { λ text. Some (quoted text.0.now) };

    fn fmt<W: fmt::Write>(&self, f: &mut fmt::Formatter<W>) -> fmt::Result {
        f.write_char('"')?;
        write_shown(f, self.0)?;
        f.write_char('"')
    }
}

fn write_shown<W: fmt::Write>(f: &mut fmt::Formatter<W>, text: &str) -> fmt::Result
    ensures { WritesOnOk W.write_str_gives f.old result (shown 200 (chars text.now)) f.new }
{
    let mut room = MAX_SHOWN;
    let mut rest = text.chars();
    'shown: while let Some(c) = rest.next() {
        if room == 0 {
            return f.write_str("..");
        }
        write_char(f, c)?;
        room -= 1;
    }
    Ok(())
}

fn write_char<W: fmt::Write>(f: &mut fmt::Formatter<W>, c: char) -> fmt::Result
    ensures { WritesOnOk W.write_str_gives f.old result (shown_char c) f.new }
{
    if c.is_control() {
        let number = u32::from(c);
        write!(f, "\\u{{{number:x}}}")
    } else {
        f.write_char(c)
    }
}
