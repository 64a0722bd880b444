ghost use Rattle.std.specs.Prelude.{◌≡◌, None};
ghost use Rattle.commands.specs.StatusPrinter.{fault_in};

use crate::expect::status_name;
use crate::fault::Fault;
use client::Listener;
use std::alloc::{AllocError, Global};
use std::fmt::Write as _;
use std::io::Write;

/// Prints each status of a Watch on a line of its own, which is seen at once. It has enough once it cannot.
#[derive(Drop)]
pub struct StatusPrinter<'a, O> {
    alloc: Global,
    output: &'a mut O,
    fault: Option<Fault>,
}

impl<'a, O: Write> StatusPrinter<'a, O> {
    pub fn new(alloc: Global, output: &'a mut O) -> StatusPrinter<'a, O>
        ensures { fault_in result ≡ None }
    {
        StatusPrinter {
            alloc,
            output,
            fault: None,
        }
    }

    /// Why it printed no more, if so.
    pub fn fault(&self) -> Option<Fault>
        ensures { result ≡ fault_in self.now }
    {
        self.fault
    }
}

impl<O: Write> Listener for StatusPrinter<'_, O> {
    ghost use Rattle.std.specs.Prelude.{None, is_some};
    ghost use Rattle.commands.specs.StatusPrinter.{fault_in};

    ghost heard = { λ _. None };

    ghost has_enough = { λ printer. is_some (fault_in printer) };

    fn hear(&mut self, status: u64) -> bool {
        match print_status(self.alloc, self.output, status) {
            Ok(()) => false,
            Err(fault) => {
                self.fault = Some(fault);
                true
            }
        }
    }
}

fn print_status<O: Write>(alloc: Global, output: &mut O, status: u64) -> Result<(), Fault> {
    let mut line = String::new(alloc);
    put_status(&mut line, status)?;
    if output.write_all(line.as_bytes()).is_err() || output.flush().is_err() {
        return Err(Fault::Write);
    }
    Ok(())
}

/// A status by its name, or by its number where it has none.
pub(crate) fn put_status(output: &mut String, status: u64) -> Result<(), AllocError> {
    match status_name(status) {
        Some(name) => writeln!(output, "{name}"),
        None => writeln!(output, "status {status}"),
    }
}
