ghost use Rattle.std.specs.Prelude.{◌≡◌, ◌<◌, ◌∷◌, length};
ghost use Rattle.script.specs.TextLines.{without_cr, content, lines};
ghost use Rattle.script.specs.declared.script.Mode.TheVariants.{Run};

use crate::script::Mode;
use std::marker::Model;

/// What is left of a text: it gives its lines of which a byte is read, each with its number.
#[derive(Drop)]
pub(crate) struct Lines<'a> {
    mode: Mode,
    rest: &'a str,
    number: u32,
}

impl<'a> Model for Lines<'a> {
    ghost use Rattle.std.specs.Prelude.{◌+◌, ◌^◌, ◌<◌, length};
    ghost use Rattle.script.specs.TextLines.{Left, left_from, lines};

    ghost Value = { Left };

    ghost view = { λ left. left_from left.mode left.number left.rest.now };

    ghost invariant = { λ left. left.number + length (lines left.rest.now) < 2 ^ 32 };
}

impl<'a> Lines<'a> {
    ghost use Rattle.std.specs.Prelude.{◌≡◌, ◌≤◌, [], length, IfOk, IfErr};
    ghost use Rattle.script.specs.TextLines.{left_from, with_line};

    /// The lines of a text, whose numbers count from 1.
    pub(crate) fn new(mode: Mode, text: &'a str) -> Lines<'a>
        requires { length text.now ≤ 65536 }
        ensures { result ≡ left_from mode 1 text.now }
    {
        Lines {
            mode,
            rest: text,
            number: 1,
        }
    }

    /// The same lines, to look ahead in.
    pub(crate) fn look_ahead(&self) -> Lines<'a>
        ensures { result ≡ self.now }
    {
        Lines {
            mode: self.mode,
            rest: self.rest,
            number: self.number,
        }
    }

    /// Takes the next line of which a byte is read, with its number. Where there is none it gives the number after the last line.
    pub(crate) fn next(&mut self) -> Result<(u32, &'a str), u32>
        ensures line { IfOk result (λ line. self.old ≡ with_line (line.0, line.1.now) self.new) }
        ensures none { IfErr result (λ end.
            (self.old.lines ≡ []) × (self.new.lines ≡ []) × (end ≡ self.old.end)) }
    {
        while !self.rest.is_empty() {
            let (line, rest) = first_line(self.rest);
            let line = content(self.mode, line);
            let number = self.number;
            self.rest = rest;
            self.number += 1;
            if !line.is_empty() {
                return Ok((number, line));
            }
        }
        Err(self.number)
    }
}

fn first_line(text: &str) -> (&str, &str)
    requires { 0 < length text.now }
    ensures line { lines text.now ≡ result.0.now ∷ lines result.1.now }
    ensures shorter { length result.1.now < length text.now }
{
    text.split_once('\n').unwrap_or((text, ""))
}

/// What is read of a line.
fn content(mode: Mode, line: &str) -> &str
    ensures { result.now ≡ content mode line.now }
{
    match mode {
        Mode::Replay | Mode::Serve => line,
        Mode::Run => uncommented(line),
    }
}

/// Nothing of a comment, and any other line without the CR at its end.
fn uncommented(line: &str) -> &str
    ensures { result.now ≡ content Run line.now }
{
    if line.starts_with('#') {
        return "";
    }
    without_cr(line)
}

/// A line without the CR at its end, if it has one.
pub fn without_cr(line: &str) -> &str
    ensures { result.now ≡ without_cr line.now }
{
    line.strip_suffix('\r').unwrap_or(line)
}
