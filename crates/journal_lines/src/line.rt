ghost use Rattle.std.specs.Prelude.{◌≡◌, IfOk, string_bytes};
ghost use Rattle.control.specs.Text.{number_text};
ghost use Rattle.journal_lines.specs.Lines.{IsLine};

use chronicle::{Note, time_text};
use control::{push_done, push_note};
use desk_core::Catalogue;
use entry_record::Stored;
use std::alloc::{AllocError, Global};

/// The line of an entry, without LF: as a session answers `entry N`, or with `-` in place of the number where there is none.
pub(crate) fn line_of(
    alloc: Global,
    catalogue: &Catalogue,
    number: Option<u32>,
    stored: &Stored,
) -> Result<String, AllocError>
    ensures { IfOk result (λ line. IsLine catalogue.now number stored.now (string_bytes line)) }
{
    let note = Some(Note {
        time: time_text(stored.micros),
        who: stored.who,
    });
    let mut line = number_text(alloc, number)?;
    line.push_str(" ")?;
    push_note(alloc, &mut line, &note)?;
    line.push_str(" ")?;
    push_done(alloc, &mut line, catalogue, &stored.entry)?;
    Ok(line)
}

fn number_text(alloc: Global, number: Option<u32>) -> Result<String, AllocError>
    ensures { IfOk result (λ text. string_bytes text ≡ number_text number) }
{
    match number {
        None => String::from_str(alloc, "-"),
        Some(number) => format!(in alloc; "{number}"),
    }
}
