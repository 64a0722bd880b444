use crew::CallEnd;
use desk_core::{Desk, Refusal, Reply};
use probe_core::Probe;
use std::alloc::AllocError;
use std::fmt::Write;
use web_call::{Outcome, Why};

/// What a server did before it ended.
#[derive(Drop)]
pub struct Served<P: Probe> {
    /// How each call ended, by its number.
    pub calls: Vec<CallEnd>,
    /// What came of each order, in their order.
    pub orders: Vec<Result<Reply, Refusal>>,
    /// The registry that the hall had, with its journal.
    pub desk: Desk<P>,
}

impl<P: Probe> Served<P> {
    ghost use Rattle.std.specs.Prelude.{◌≡◌, length};

    /// Puts a line for each call, and one for the length of the journal.
    pub fn put(&self, output: &mut String) -> Result<(), AllocError> {
        for (number, end) in self.calls.iter().enumerate() {
            put_end(output, number, *end)?;
        }
        writeln!(output, "journal {}", self.entries())
    }

    /// How many changes the journal has.
    pub fn entries(&self) -> usize
        ensures { result ≡ length self.now.desk.journal }
    {
        self.desk.journal().len()
    }
}

fn put_end(output: &mut String, number: usize, end: CallEnd) -> Result<(), AllocError> {
    match end {
        CallEnd::Done(Outcome::Status(code)) => {
            let code = code.number();
            writeln!(output, "call {number} status {code}")
        }
        CallEnd::Done(Outcome::Http(code)) => writeln!(output, "call {number} http {code}"),
        CallEnd::Done(Outcome::Watched { messages } | Outcome::Behind { messages }) => {
            writeln!(output, "call {number} watch {messages}")
        }
        CallEnd::Done(Outcome::Plain) => writeln!(output, "call {number} plain"),
        CallEnd::Fault(fault) => {
            let why = why_text(fault.why);
            writeln!(output, "call {number} fault {why}")
        }
        CallEnd::Unopened => writeln!(output, "call {number} unopened"),
    }
}

fn why_text(why: Why) -> &'static str {
    match why {
        Why::Read => "read",
        Why::Write => "write",
        Why::NoMemory => "memory",
    }
}
