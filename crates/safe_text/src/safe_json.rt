use crate::safe_char::is_unsafe;
use std::fmt;

/// A text of JSON that can be printed. An unsafe character of it, which stands in a string there, is escaped as JSON has it, as `\u009b`; a
/// line feed, which stands in none, is left.
#[derive(Clone, Copy)]
pub struct SafeJson<'a>(pub &'a str);

impl fmt::Display for SafeJson<'_> {
    fn fmt<W: fmt::Write>(&self, f: &mut fmt::Formatter<W>) -> fmt::Result {
        for c in self.0.chars() {
            write_char(f, c)?;
        }
        Ok(())
    }
}

/// No unsafe character needs more than four digits.
fn write_char<W: fmt::Write>(f: &mut fmt::Formatter<W>, c: char) -> fmt::Result {
    if is_unsafe(c) && c != '\n' {
        let number = u32::from(c);
        write!(f, "\\u{number:04x}")
    } else {
        f.write_char(c)
    }
}
