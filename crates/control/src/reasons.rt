//! The texts of reasons.

ghost use Rattle.std.specs.Prelude.{◌≡◌, IfOk, string_bytes};
ghost use Rattle.control.specs.Text.{reason_text};

use crate::words::slot_word;
use desk_core::{Catalogue, Cause, Reason};
use std::alloc::{AllocError, Global};
use std::fmt;

/// An entry, as a reason names it.
#[derive(Clone, Copy)]
struct Named {
    cause: Cause,
}

impl fmt::Display for Named {
    ghost use Rattle.std.specs.Prelude.{Some};
    ghost use Rattle.control.specs.Text.{cause_text};

    ghost output = { λ named. Some (cause_text named.cause) };

    fn fmt<W: fmt::Write>(&self, f: &mut fmt::Formatter<W>) -> fmt::Result {
        let Cause { place, is_kept } = self.cause;
        if is_kept {
            write!(f, "entry {place}")
        } else {
            write!(f, "an older entry")
        }
    }
}

/// Fails in a row, and the passes since.
#[derive(Clone, Copy)]
struct Row {
    fails: u32,
    named: Named,
    passes: u32,
    rise: u32,
}

impl fmt::Display for Row {
    ghost use Rattle.std.specs.Prelude.{Some};
    ghost use Rattle.control.specs.Text.{row_text};

    ghost output = { λ row. Some (row_text row.fails row.named.cause row.passes row.rise) };

    fn fmt<W: fmt::Write>(&self, f: &mut fmt::Formatter<W>) -> fmt::Result {
        let Row {
            fails,
            named,
            passes,
            rise,
        } = *self;
        write!(
            f,
            "{fails} fails in a row up to {named}, {passes} of {rise} passes since"
        )
    }
}

/// Why a service has its status.
pub(crate) fn reason_text(
    alloc: Global,
    catalogue: &Catalogue,
    reason: Reason,
) -> Result<String, AllocError>
    ensures { IfOk result (λ text. string_bytes text ≡ reason_text catalogue.now reason) }
{
    match reason {
        Reason::Serving => String::from_str(alloc, "serving"),
        Reason::ShutDown(cause) => {
            let named = Named { cause };
            format!(in alloc; "not_serving: shut down by {named}")
        }
        Reason::DependsOn(slot) => {
            let word = slot_word(catalogue, slot);
            format!(in alloc; "not_serving: depends on {word}")
        }
        Reason::Failed {
            fails,
            cause,
            passes,
            rise,
        } => {
            let named = Named { cause };
            let row = Row {
                fails,
                named,
                passes,
                rise,
            };
            format!(in alloc; "not_serving: {row}")
        }
        Reason::SetDown(cause) => {
            let named = Named { cause };
            format!(in alloc; "not_serving: set down by {named}")
        }
        Reason::Unheard(cause) => {
            let named = Named { cause };
            format!(in alloc; "unknown: nothing heard since {named}")
        }
        Reason::Retired(cause) => {
            let named = Named { cause };
            format!(in alloc; "absent: retired by {named}")
        }
        Reason::NeverRegistered => String::from_str(alloc, "absent: never registered"),
    }
}
