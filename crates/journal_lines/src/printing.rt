ghost use Rattle.std.specs.Prelude.{◌≡◌, ℕ, List, IsFalse, IfOk, OnOk, IsErrOf, string_bytes};
ghost use Rattle.std.specs.Io.KnownBytes.{Appends};
ghost use Rattle.control.specs.Line.{ended};
ghost use Rattle.journal_lines.specs.Damage.{IsFaultAt};
ghost use Rattle.journal_lines.specs.Lines.{AreLines, IsLine, IsPrinted};
ghost use Rattle.journal_lines.specs.declared.printing_fault.PrintingFault.TheVariants.{Damaged};

use crate::journal::Journal;
use crate::line::line_of;
use crate::printing_fault::PrintingFault;
use crate::reading::read_journal;
use desk_core::Catalogue;
use entry_record::Stored;
use readout::entry_json;
use std::alloc::{AllocError, Global};
use std::io::Write;

/// Prints the entries of a journal's file with these bytes, one a line, the oldest first. Of a file that is damaged none is printed.
pub fn print_entries<O: Write>(
    alloc: Global,
    file: &[u8],
    is_json: bool,
    output: &mut O,
) -> Result<(), PrintingFault>
    ensures lines { IsFalse is_json → OnOk result ((text : List ℕ) × IsPrinted file.now text
        × Appends (O.contents output.old) (O.contents output.new) text) }
    ensures damaged { (at : ℕ) → IsErrOf result (Damaged at) → IsFaultAt file.now at }
{
    match read_journal(alloc, file) {
        Ok(None) => Ok(()),
        Ok(Some(journal)) => print_each(alloc, &journal, is_json, output),
        Err(fault) => Err(fault),
    }
}

fn print_each<O: Write>(
    alloc: Global,
    journal: &Journal,
    is_json: bool,
    output: &mut O,
) -> Result<(), PrintingFault>
    ensures lines { IsFalse is_json → OnOk result ((text : List ℕ)
        × AreLines journal.now.preface 0 journal.now.stored.items text
        × Appends (O.contents output.old) (O.contents output.new) text) }
    ensures undamaged { (at : ℕ) → IsErrOf result (Damaged at) → ⊥ }
{
    for (place, stored) in journal.stored.iter().enumerate() {
        let number = journal.number(place);
        print_entry(alloc, &journal.catalogue, number, stored, is_json, output)?;
    }
    Ok(())
}

fn print_entry<O: Write>(
    alloc: Global,
    catalogue: &Catalogue,
    number: Option<u32>,
    stored: &Stored,
    is_json: bool,
    output: &mut O,
) -> Result<(), PrintingFault>
    ensures line { IsFalse is_json → OnOk result ((line : List ℕ)
        × IsLine catalogue.now number stored.now line
        × Appends (O.contents output.old) (O.contents output.new) (ended line)) }
    ensures undamaged { (at : ℕ) → IsErrOf result (Damaged at) → ⊥ }
{
    let line = line_of(alloc, catalogue, number, stored)?;
    let mut bytes = told(alloc, line, is_json)?.into_bytes();
    bytes.push(b'\n')?;
    match output.write_all(&bytes) {
        Ok(()) => Ok(()),
        Err(error) => Err(PrintingFault::of_writing(error)),
    }
}

/// A line as it is, or as an object of JSON.
fn told(alloc: Global, line: String, is_json: bool) -> Result<String, AllocError>
    ensures { IsFalse is_json → IfOk result (λ text. string_bytes text ≡ string_bytes line) }
{
    if !is_json {
        return Ok(line);
    }
    Ok(entry_json(alloc, &line)?.unwrap_or(line))
}
