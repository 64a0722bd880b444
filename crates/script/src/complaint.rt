ghost use Rattle.std.specs.Prelude.{◌↔◌, ◌∷◌, ℕ, List, IsNone, IsTrue, IfOk, IfSome};
ghost use Rattle.script.specs.Complaint.{IsSo, IsSoOf};
ghost use Rattle.script.specs.Script.{MayRun};
ghost use Rattle.script.specs.TextLines.{texts};

use crate::name::name_of;
use crate::number::number_of;
use crate::quoted::Quoted;
use crate::reading::{next_expectation, next_line};
use crate::script::Mode;
use crate::words::words_of;
use desk_core::Catalogue;
use std::alloc::{AllocError, Global};
use std::fmt;

/// What is wrong with a line of a script to run, in the words that a message has for it.
#[derive(Clone, Copy)]
pub(crate) enum Complaint<'a> {
    /// The first line is another one.
    NeedsCatalogue,
    /// Two spaces stand together, or one at an end.
    EmptyWord,
    UnknownLine,
    /// A script to replay or to serve may have the line.
    OfOtherScripts,
    NeedsRule,
    UnknownRule,
    NeedsCounts,
    NeedsNames,
    NotListed(&'a str),
    NoNumber(&'a str),
    /// The word has one name behind it.
    NeedsName(&'a str),
    StandsAlone(&'a str),
    NeedsMax,
    /// It stands behind other lines.
    MaxTooLate,
    NeedsSeconds,
}

impl fmt::Display for Complaint<'_> {
    ghost use Rattle.std.specs.Prelude.{Some};
    ghost use Rattle.script.specs.Complaint.{complaint_text};

    ghost output = { λ complaint. Some (complaint_text complaint) };

    fn fmt<W: fmt::Write>(&self, f: &mut fmt::Formatter<W>) -> fmt::Result {
        let text = match *self {
            Complaint::NotListed(word) => {
                let word = Quoted(word);
                return write!(f, "{word} is not in the catalogue");
            }
            Complaint::NoNumber(word) => {
                let word = Quoted(word);
                return write!(f, "{word} is no number from 0 to 4294967295");
            }
            Complaint::NeedsName(word) => return write!(f, "expected {word} NAME"),
            Complaint::StandsAlone(word) => return write!(f, "expected {word} alone"),
            Complaint::NeedsCatalogue => "expected catalogue and the names",
            Complaint::EmptyWord => "an empty word, expected one space between words",
            Complaint::UnknownLine => {
                "no such line, expected register, retire, pass, fail, up, down, shutdown, \
                    resume or expect"
            }
            Complaint::OfOtherScripts => "not in a script to run",
            Complaint::NeedsRule => "expected register NAME and then threshold, manual or depends",
            Complaint::UnknownRule => "no such rule, expected threshold, manual or depends",
            Complaint::NeedsCounts =>
                "expected threshold F, threshold F R or threshold F R unknown",
            Complaint::NeedsNames => "expected depends and names of the catalogue",
            Complaint::NeedsMax => "expected max N",
            Complaint::MaxTooLate => "expected max right after the catalogue",
            Complaint::NeedsSeconds => "expected expect NAME SECONDS, 86400 seconds at most",
        };
        f.write_str(text)
    }
}

/// What is wrong with a line behind those that open a script to run, if anything is.
pub(crate) fn complaint_of<'a>(
    alloc: Global,
    catalogue: &Catalogue,
    text: &'a str,
) -> Result<Option<Complaint<'a>>, AllocError>
    ensures none { IfOk result (λ found. IsNone found ↔ MayRun catalogue.now text.now) }
    ensures so { IfOk result (λ found. IfSome found (IsSoOf catalogue.now text.now)) }
{
    if may_run(alloc, catalogue, text)? {
        return Ok(None);
    }
    match words_of(alloc, text)? {
        Some(words) => Ok(Some(line_complaint(catalogue, &words))),
        None => Ok(Some(Complaint::EmptyWord)),
    }
}

/// Whether the text may stand behind the opening of a script to run.
fn may_run(alloc: Global, catalogue: &Catalogue, text: &str) -> Result<bool, AllocError>
    ensures { IfOk result (λ may. IsTrue may ↔ MayRun catalogue.now text.now) }
{
    if next_expectation(alloc, Mode::Run, text)?.is_some() {
        return Ok(true);
    }
    let line = next_line(alloc, Mode::Run, catalogue, 0, text)?;
    Ok(line.is_some())
}

/// What is wrong with the words of a bad line.
fn line_complaint<'a>(catalogue: &Catalogue, words: &[&'a str]) -> Complaint<'a>
    ensures { IsSo catalogue.now (texts words.now) result }
{
    let [first, others @ ..] = words else {
        return Complaint::UnknownLine;
    };
    match *first {
        "register" => register_complaint(catalogue, others),
        "max" => max_complaint(others),
        word => word_complaint(word),
    }
}

/// What is wrong with the words behind `register`.
fn register_complaint<'a>(catalogue: &Catalogue, words: &[&'a str]) -> Complaint<'a>
    ensures { IsSo catalogue.now (texts words.now) result }
{
    match words {
        [_, rule @ ..] => rule_complaint(catalogue, rule),
        [] => Complaint::NeedsRule,
    }
}

/// What is wrong with a bad line that begins with the word.
fn word_complaint<'a>(word: &'a str) -> Complaint<'a>
    ensures { (names others : List (List ℕ)) → IsSo names (word.now ∷ others) result }
{
    match word {
        "retire" | "pass" | "fail" | "up" | "down" => Complaint::NeedsName(word),
        "shutdown" | "resume" => Complaint::StandsAlone(word),
        "expect" => Complaint::NeedsSeconds,
        "check" | "open" | "step" | "board" | "go" => Complaint::OfOtherScripts,
        _ => Complaint::UnknownLine,
    }
}

/// What is wrong with the words of a rule, which are none.
fn rule_complaint<'a>(catalogue: &Catalogue, words: &[&'a str]) -> Complaint<'a>
    ensures { IsSo catalogue.now (texts words.now) result }
{
    let [first, others @ ..] = words else {
        return Complaint::NeedsRule;
    };
    match *first {
        "threshold" => threshold_complaint(others),
        "depends" => names_complaint(catalogue, others),
        "manual" => Complaint::StandsAlone(first),
        _ => Complaint::UnknownRule,
    }
}

fn threshold_complaint<'a>(words: &[&'a str]) -> Complaint<'a>
    ensures { (names : List (List ℕ)) → IsSo names (texts words.now) result }
{
    match words {
        [fall] | [fall, _] | [fall, _, "unknown"] if number_of(fall).is_none() => {
            Complaint::NoNumber(fall)
        }
        [_, rise] | [_, rise, "unknown"] if number_of(rise).is_none() => Complaint::NoNumber(rise),
        _ => Complaint::NeedsCounts,
    }
}

fn names_complaint<'a>(catalogue: &Catalogue, words: &[&'a str]) -> Complaint<'a>
    ensures { IsSo catalogue.now (texts words.now) result }
{
    for word in words {
        if catalogue.slot(name_of(word)).is_none() {
            return Complaint::NotListed(word);
        }
    }
    Complaint::NeedsNames
}

/// What is wrong with the words behind `max`, where they may not stand.
fn max_complaint<'a>(words: &[&'a str]) -> Complaint<'a>
    ensures { (names : List (List ℕ)) → IsSo names (texts words.now) result }
{
    match words {
        [word] => match number_of(word) {
            Some(_) => Complaint::MaxTooLate,
            None => Complaint::NoNumber(word),
        },
        _ => Complaint::NeedsMax,
    }
}
