ghost use Rattle.std.specs.Prelude.{◌≡◌, ◌≢◌, ◌≤◌, ◌↔◌, ◌++◌, ℕ, List, None, length, codes, decimal, string_bytes, unwrap_or, IfOk, IfSome, IsNone};
ghost use Rattle.std.specs.Option.{option_map};
ghost use Rattle.desk_core.specs.Fault.{fault_in, text_of};
ghost use Rattle.script.specs.declared.complaint.Complaint.{Complaint};
ghost use Rattle.script.specs.declared.script.Mode.TheVariants.{Run};
ghost use Rattle.script.specs.CatalogueComplaint.{text_in};
ghost use Rattle.script.specs.Explanation.{IsExplanation, ExplainsLine, ExplainsNames, IsFound, line_at, line_told};
ghost use Rattle.script.specs.Opening.{IsCatalogueLine};
ghost use Rattle.script.specs.Script.{IsText};
ghost use Rattle.script.specs.TextLines.{left_from, texts};

use crate::catalogue_complaint::complaint_in;
use crate::complaint::{Complaint, complaint_of};
use crate::opening::names_in;
use crate::quoted::Quoted;
use crate::reading::MAX_LEN;
use crate::script::Mode;
use crate::script_fault::ScriptFault;
use crate::text_lines::Lines;
use crate::words::words_of;
use desk_core::{Catalogue, CatalogueFault};
use std::alloc::{AllocError, Global};
use std::fmt::Write as _;

/// Says in one line why the bytes are no script to run, where this is their fault. A bad line is told with its number, its text and what
/// was expected there, and a fault of the catalogue with the name that has it.
pub fn explain(alloc: Global, bytes: &[u8], fault: ScriptFault) -> Result<String, AllocError>
    ensures { IfOk result (λ text. IsExplanation bytes.now fault (string_bytes text)) }
{
    let Some(text) = text_of(bytes) else {
        return format!(in alloc; "{fault}");
    };
    match fault {
        ScriptFault::BadLine(number) => explain_line(alloc, text, number),
        ScriptFault::Catalogue(fault) => explain_names(alloc, text, fault),
        _ => format!(in alloc; "{fault}"),
    }
}

/// The text of bytes that are one, and few enough.
fn text_of(bytes: &[u8]) -> Option<&str>
    ensures some { IfSome result (λ text. (text.now ≡ bytes.now) × (length text.now ≤ 65536)) }
    ensures none { IsNone result → ¬ IsText bytes.now }
{
    if bytes.len() > MAX_LEN {
        return None;
    }
    str::from_utf8(bytes).ok()
}

fn explain_line(alloc: Global, text: &str, number: u32) -> Result<String, AllocError>
    requires { length text.now ≤ 65536 }
    ensures { IfOk result (λ told.
        ExplainsLine (left_from Run 1 text.now) number (string_bytes told)) }
{
    let mut lines = Lines::new(Mode::Run, text);
    let Ok((first, opening)) = lines.next() else {
        return String::from_str(alloc, "no catalogue line");
    };
    if first == number {
        let complaint = opening_complaint(alloc, opening)?;
        return told_line(alloc, number, opening, complaint);
    }
    match line_at(number, lines) {
        Some(line) => {
            let complaint = complaint_behind(alloc, opening, line)?;
            told_line(alloc, number, line, complaint)
        }
        None => format!(in alloc; "script line {number}"),
    }
}

/// The line with this number.
fn line_at<'a>(number: u32, lines: Lines<'a>) -> Option<&'a str>
    ensures { option_map (λ line. line.now) result ≡ line_at number lines.entry.lines }
{
    let mut rest = lines;
    while let Ok((at, line)) = rest.next() {
        if at == number {
            return Some(line);
        }
    }
    None
}

/// What is wrong with the first line, if it is not one of a catalogue.
fn opening_complaint<'a>(alloc: Global, line: &'a str) -> Result<Option<Complaint<'a>>, AllocError>
    ensures { IfOk result (λ found.
        IsNone found ↔ (names : List (List ℕ)) × IsCatalogueLine line.now names) }
{
    let Some(_names) = names_in(alloc, line)? else {
        return Ok(Some(Complaint::NeedsCatalogue));
    };
    Ok(None)
}

/// What is wrong with a line behind the first one, by the names that it lists.
fn complaint_behind<'a>(
    alloc: Global,
    opening: &str,
    line: &'a str,
) -> Result<Option<Complaint<'a>>, AllocError>
    ensures { IfOk result (λ found. (names : List (List ℕ)) → IsCatalogueLine opening.now names
        → fault_in names ≡ None → IsFound names line.now found) }
{
    let Some(names) = names_in(alloc, opening)? else {
        return Ok(None);
    };
    match Catalogue::new(alloc, names) {
        Ok(catalogue) => complaint_of(alloc, &catalogue, line),
        Err(CatalogueFault::NoMemory) => Err(AllocError),
        Err(_) => Ok(None),
    }
}

fn told_line(
    alloc: Global,
    number: u32,
    line: &str,
    complaint: Option<Complaint<'_>>,
) -> Result<String, AllocError>
    ensures { IfOk result (λ told. string_bytes told ≡ line_told number line.now complaint.entry) }
{
    let line = Quoted(line);
    let mut told = String::new(alloc);
    write!(told, "script line {number}: {line}")?;
    if let Some(complaint) = complaint {
        write!(told, ": {complaint}")?;
    }
    Ok(told)
}

fn explain_names(alloc: Global, text: &str, fault: CatalogueFault) -> Result<String, AllocError>
    requires { length text.now ≤ 65536 }
    ensures { IfOk result (λ told.
        ExplainsNames (left_from Run 1 text.now) fault (string_bytes told)) }
{
    let mut lines = Lines::new(Mode::Run, text);
    let Ok((_, line)) = lines.next() else {
        return told_names(alloc, &[], fault);
    };
    let Some(words) = words_of(alloc, line)? else {
        return told_names(alloc, &[], fault);
    };
    match words.as_slice() {
        ["catalogue", names @ ..] => told_names(alloc, names, fault),
        _ => told_names(alloc, &[], fault),
    }
}

fn told_names(alloc: Global, words: &[&str], fault: CatalogueFault) -> Result<String, AllocError>
    ensures { IfOk result (λ told. string_bytes told
        ≡ codes "catalogue: " ++ unwrap_or (text_in (texts words.now) fault) (text_of fault)) }
{
    match complaint_in(words, fault) {
        Some(complaint) => format!(in alloc; "catalogue: {complaint}"),
        None => format!(in alloc; "catalogue: {fault}"),
    }
}
