use crate::texts::{changed_text, checked_text, serving_text, stepped_text};
use desk_core::{Refusal, Reply};
use health_wire::Serving;
use std::fmt;

/// What a line of a script comes to. Its text is what a run prints.
#[derive(Clone, Copy)]
pub enum Outcome {
    Changed(Result<Reply, Refusal>),
    Checked(Option<Serving>),
    /// The number of the watch, which counts from 0, and what it shows at first.
    Opened(usize, Serving),
    Stepped(Option<Serving>),
    Board(u64),
}

impl fmt::Display for Outcome {
    ghost use Rattle.std.specs.Prelude.{Some};
    ghost use Rattle.script.specs.RunText.{outcome_text};

    ghost output = { λ outcome. Some (outcome_text outcome) };

    fn fmt<W: fmt::Write>(&self, f: &mut fmt::Formatter<W>) -> fmt::Result {
        match *self {
            Outcome::Changed(changed) => f.write_str(changed_text(changed)),
            Outcome::Checked(status) => f.write_str(checked_text(status)),
            Outcome::Opened(number, status) => {
                let status = serving_text(status);
                write!(f, "watch {number} {status}")
            }
            Outcome::Stepped(status) => f.write_str(stepped_text(status)),
            Outcome::Board(word) => write!(f, "{word}"),
        }
    }
}
