ghost use Rattle.std.specs.Prelude.{◌≡◌, ◌≢◌, map, string_bytes, IfOk, IfErr, OnOk, None, Some};
ghost use Rattle.std.specs.Option.{option_map};
ghost use Rattle.desk_core.specs.Fault.{fault_in};
ghost use Rattle.script.specs.TextLines.{texts};
ghost use Rattle.script.specs.declared.script.Mode.TheVariants.{Run};
ghost use Rattle.script.specs.Opening.{IsCatalogueLine, IsMaxLine, IsMaxSaid, TakesCatalogue, TakesMax, TakesMaxLine, IsCatalogueFault, IsMaxFault};
ghost use Rattle.script.specs.Reading.{IsReading};
ghost use Rattle.script.specs.Word.{name_of};

use crate::name::name_of;
use crate::number::number_of;
use crate::script::Mode;
use crate::script_fault::ScriptFault;
use crate::text_lines::Lines;
use crate::words::words_of;
use desk_core::{Catalogue, CatalogueFault};
use std::alloc::{AllocError, Global};

/// Takes the line with the names of the catalogue.
pub(crate) fn read_catalogue(alloc: Global, lines: &mut Lines<'_>) -> Result<Catalogue, ScriptFault>
    ensures ok { IfOk result (λ catalogue. TakesCatalogue lines.old catalogue lines.new) }
    ensures fault { IfErr result (λ fault. fault ≢ ScriptFault.NoMemory
        → IsCatalogueFault lines.old fault) }
{
    let (number, line) = match lines.next() {
        Ok(next) => next,
        Err(end) => return Err(ScriptFault::BadLine(end)),
    };
    match names_in(alloc, line) {
        Ok(Some(names)) => catalogue_of(alloc, names),
        Ok(None) => Err(ScriptFault::BadLine(number)),
        Err(_) => Err(ScriptFault::NoMemory),
    }
}

/// Takes the line that says how many entries the journal may have. A script to run may lack it, and have as many as there can be.
pub(crate) fn read_max(alloc: Global, mode: Mode, lines: &mut Lines<'_>) -> Result<u32, ScriptFault>
    ensures ok { IfOk result (λ max. TakesMax mode lines.old max lines.new) }
    ensures fault { IfErr result (λ fault. fault ≢ ScriptFault.NoMemory
        → (mode ≢ Run) × IsMaxFault lines.old fault) }
{
    match mode {
        Mode::Replay | Mode::Serve => needed_max(alloc, lines),
        Mode::Run => Ok(said_max(alloc, lines)?.unwrap_or(u32::MAX)),
    }
}

fn needed_max(alloc: Global, lines: &mut Lines<'_>) -> Result<u32, ScriptFault>
    ensures ok { IfOk result (λ max. TakesMaxLine lines.old max lines.new) }
    ensures fault { IfErr result (λ fault. fault ≢ ScriptFault.NoMemory
        → IsMaxFault lines.old fault) }
{
    let (number, line) = match lines.next() {
        Ok(next) => next,
        Err(end) => return Err(ScriptFault::BadLine(end)),
    };
    match max_in(alloc, line) {
        Ok(Some(max)) => Ok(max),
        Ok(None) => Err(ScriptFault::BadLine(number)),
        Err(_) => Err(ScriptFault::NoMemory),
    }
}

/// Takes nothing where the next line says no number.
fn said_max(alloc: Global, lines: &mut Lines<'_>) -> Result<Option<u32>, AllocError>
    ensures { IfOk result (λ found. IsMaxSaid lines.old found lines.new) }
{
    let mut behind = lines.look_ahead();
    let Ok((_, line)) = behind.next() else {
        return Ok(None);
    };
    let Some(max) = max_in(alloc, line)? else {
        return Ok(None);
    };
    *lines = behind;
    Ok(Some(max))
}

fn catalogue_of(alloc: Global, names: Vec<String>) -> Result<Catalogue, ScriptFault>
    ensures ok { IfOk result (λ catalogue. catalogue ≡ map string_bytes names.items) }
    ensures faultless { OnOk result (fault_in (map string_bytes names.items) ≡ None) }
    ensures fault { IfErr result (λ fault. fault ≢ ScriptFault.NoMemory
        → option_map ScriptFault.Catalogue (fault_in (map string_bytes names.items)) ≡ Some fault) }
{
    match Catalogue::new(alloc, names) {
        Ok(catalogue) => Ok(catalogue),
        Err(fault) => match fault {
            CatalogueFault::NoMemory => Err(ScriptFault::NoMemory),
            _ => Err(ScriptFault::Catalogue(fault)),
        },
    }
}

/// The names that a line lists, if it is one of a catalogue.
pub(crate) fn names_in(alloc: Global, line: &str) -> Result<Option<Vec<String>>, AllocError>
    ensures { IfOk result (λ found. IsReading IsCatalogueLine line.now
        (option_map (λ names. map string_bytes names.items) found)) }
{
    let Some(words) = words_of(alloc, line)? else {
        return Ok(None);
    };
    match words.as_slice() {
        ["catalogue", names @ ..] => {
            if names.is_empty() {
                return Ok(None);
            }
            Ok(Some(names_of(alloc, names)?))
        }
        _ => Ok(None),
    }
}

fn names_of(alloc: Global, words: &[&str]) -> Result<Vec<String>, AllocError>
    ensures { IfOk result (λ names. map string_bytes names.items ≡ map name_of (texts words.now)) }
{
    let mut names = Vec::new(alloc);
    for word in words {
        names.push(String::from_str(alloc, name_of(word))?)?;
    }
    Ok(names)
}

fn max_in(alloc: Global, line: &str) -> Result<Option<u32>, AllocError>
    ensures { IfOk result (λ max. IsReading IsMaxLine line.now max) }
{
    let Some(words) = words_of(alloc, line)? else {
        return Ok(None);
    };
    match words.as_slice() {
        ["max", word] => Ok(number_of(word)),
        _ => Ok(None),
    }
}
