ghost use Rattle.std.specs.Prelude.{chars};
ghost use Rattle.std.specs.Fmt.{WritesOnOk};
ghost use Rattle.safe_text.specs.Safe.{safe, safe_char};

use crate::safe_char::is_unsafe;
use std::fmt;

/// A text that can be printed. An unsafe character of it stands there by its number in hexadecimal digits, as `\u{1b}`.
#[derive(Clone, Copy)]
pub struct SafeText<'a>(pub &'a str);

impl fmt::Display for SafeText<'_> {
    ghost use Rattle.std.specs.Prelude.{Some};
    ghost use Rattle.safe_text.specs.Safe.{safe_text};

    ghost output = { λ text. Some (safe_text text.0.now) };

    fn fmt<W: fmt::Write>(&self, f: &mut fmt::Formatter<W>) -> fmt::Result {
        write_safe(f, self.0)
    }
}

fn write_safe<W: fmt::Write>(f: &mut fmt::Formatter<W>, text: &str) -> fmt::Result
    ensures { WritesOnOk W.write_str_gives f.old result (safe (chars text.now)) f.new }
{
    let mut rest = text.chars();
    'shown: while let Some(c) = rest.next() {
        write_char(f, c)?;
    }
    Ok(())
}

fn write_char<W: fmt::Write>(f: &mut fmt::Formatter<W>, c: char) -> fmt::Result
    ensures { WritesOnOk W.write_str_gives f.old result (safe_char c) f.new }
{
    if is_unsafe(c) {
        let number = u32::from(c);
        write!(f, "\\u{{{number:x}}}")
    } else {
        f.write_char(c)
    }
}
