ghost use Rattle.std.specs.Prelude.{◌≡◌, ◌<◌, None, Some, take, drop, IfOk, IfErr};
ghost use Rattle.std.specs.List.{list_all};
ghost use Rattle.desk_core.specs.Catalogue.{name_at};
ghost use Rattle.script.specs.Expected.{AreEachOnce, expected_first, expected_of_name};
ghost use Rattle.script.specs.Expected.{answer_to, first_refused, rule_after, rule_answer};
ghost use Rattle.script.specs.Expected.{keeps, rule_behind, seconds_kept, seconds_of};

use crate::expectation::ScriptExpectation;
use crate::line::Line;
use crate::script::Script;
use desk_core::{Catalogue, Refusal, Reply, Slot};
use probe_core::Rule;
use std::alloc::{AllocError, Global};

/// A slot has to be reported at least every so many seconds, 1 or more.
#[derive(Clone, Copy)]
pub struct Expected {
    pub slot: Slot,
    pub seconds: u32,
}

/// An expectation that does not stand, with the number of its line in the text.
#[derive(Clone, Copy)]
pub struct RefusedExpectation {
    pub number: u32,
    pub answer: Result<Reply, Refusal>,
}

/// What a script expects behind its last line, where every line was made; or the first of its
/// expectations that does not stand.
pub fn expected_of(
    alloc: Global,
    script: &Script,
) -> Result<Result<Vec<Expected>, RefusedExpectation>, AllocError>
    ensures stand { IfOk result (λ found. IfOk found (λ _.
        first_refused script.now.names script.now.lines script.now.expectations ≡ None)) }
    ensures expected { IfOk result (λ found. IfOk found (λ expected. expected.items
        ≡ expected_first script.now.names script.now.lines script.now.expectations 16)) }
    ensures each { IfOk result (λ found. IfOk found (λ expected. AreEachOnce expected.items)) }
    ensures refused { IfOk result (λ found. IfErr found (λ refused.
        first_refused script.now.names script.now.lines script.now.expectations ≡ Some refused)) }
{
    let (lines, expectations) = (script.lines(), script.expectations());
    match first_refused(script.catalogue(), lines, expectations) {
        Some(refused) => Ok(Err(refused)),
        None => Ok(Ok(all_expected(alloc, script.catalogue(), lines, expectations)?)),
    }
}

fn all_expected(
    alloc: Global,
    catalogue: &Catalogue,
    lines: &[Line],
    expectations: &[ScriptExpectation],
) -> Result<Vec<Expected>, AllocError>
    ensures all { IfOk result (λ expected. expected.items
        ≡ expected_first catalogue.now lines.now expectations.now 16) }
    ensures each { IfOk result (λ expected. AreEachOnce expected.items) }
{
    let mut expected = Vec::new(alloc);
    for number in 0..Slot::COUNT {
        if let Some(one) = expected_at(catalogue, lines, expectations, number) {
            expected.push(one)?;
        }
    }
    Ok(expected)
}

fn expected_at(
    catalogue: &Catalogue,
    lines: &[Line],
    expectations: &[ScriptExpectation],
    number: u8,
) -> Option<Expected>
    requires { number < 16 }
    ensures { result
        ≡ expected_of_name lines.now expectations.now number (name_at catalogue.now number) }
{
    let slot = Slot::new(number)?;
    let name = catalogue.name(slot)?;
    let seconds = seconds_of(name, lines, expectations);
    if seconds == 0 {
        return None;
    }
    Some(Expected { slot, seconds })
}

fn first_refused(
    catalogue: &Catalogue,
    lines: &[Line],
    expectations: &[ScriptExpectation],
) -> Option<RefusedExpectation>
    ensures { result ≡ first_refused catalogue.now lines.now expectations.now }
{
    let mut rest = expectations;
    'expectations: while let [one, others @ ..] = rest {
        if let Some(answer) = answer_to(catalogue, lines, one) {
            let number = one.number;
            return Some(RefusedExpectation { number, answer });
        }
        rest = others;
    }
    None
}

/// How an expectation is answered at its place, if it does not stand.
fn answer_to(
    catalogue: &Catalogue,
    lines: &[Line],
    one: &ScriptExpectation,
) -> Option<Result<Reply, Refusal>>
    ensures { result ≡ answer_to catalogue.now lines.now one.now }
{
    let name = one.expectation.name.as_str();
    if catalogue.slot(name).is_none() {
        return Some(Err(Refusal::NotListed));
    }
    rule_answer(rule_behind(name, first_lines(lines, one.behind)))
}

fn rule_answer(rule: Option<Rule>) -> Option<Result<Reply, Refusal>>
    ensures { result ≡ rule_answer rule }
{
    match rule {
        None => Some(Ok(Reply::Missing)),
        Some(Rule::Threshold(..)) => None,
        Some(Rule::Manual | Rule::Depends(_)) => Some(Ok(Reply::WrongKind)),
    }
}

fn first_lines(lines: &[Line], count: usize) -> &[Line]
    ensures { result.now ≡ take count lines.now }
{
    if count < lines.len() {
        &lines[..count]
    } else {
        lines
    }
}

fn lines_behind(lines: &[Line], count: usize) -> &[Line]
    ensures { result.now ≡ drop count lines.now }
{
    if count < lines.len() {
        &lines[count..]
    } else {
        &[]
    }
}

/// The rule of a name behind lines, where it had none before them.
fn rule_behind(name: &str, lines: &[Line]) -> Option<Rule>
    ensures { result ≡ rule_behind name.now lines.now None }
{
    let mut rule = None;
    let mut rest = lines;
    'lines: while let [line, others @ ..] = rest {
        rule = rule_after(name, line, rule);
        rest = others;
    }
    rule
}

fn rule_after(name: &str, line: &Line, before: Option<Rule>) -> Option<Rule>
    ensures { result ≡ rule_after name.now line.now before }
{
    match line {
        Line::Register(other, rule) if other.as_str() == name => Some(*rule),
        Line::Retire(other) if other.as_str() == name => None,
        _ => before,
    }
}

fn seconds_of(name: &str, lines: &[Line], expectations: &[ScriptExpectation]) -> u32
    ensures { result ≡ seconds_of name.now lines.now expectations.now 0 }
{
    let mut seconds = 0;
    let mut rest = expectations;
    'expectations: while let [one, others @ ..] = rest {
        if one.expectation.name.as_str() == name {
            seconds = seconds_kept(name, lines, one);
        }
        rest = others;
    }
    seconds
}

fn seconds_kept(name: &str, lines: &[Line], one: &ScriptExpectation) -> u32
    ensures { result ≡ seconds_kept name.now lines.now one.now }
{
    if all_keep(name, lines_behind(lines, one.behind)) {
        one.expectation.seconds
    } else {
        0
    }
}

fn all_keep(name: &str, lines: &[Line]) -> bool
    ensures { result ≡ list_all (keeps name.now) lines.now }
{
    lines.iter().all(|line| keeps(name, line))
}

/// Whether the line leaves standing what is expected of the name.
fn keeps(name: &str, line: &Line) -> bool
    ensures { result ≡ keeps name.now line.now }
{
    match line {
        Line::Register(other, rule) if other.as_str() == name => {
            matches!(rule, Rule::Threshold(..))
        }
        Line::Retire(other) => other.as_str() != name,
        _ => true,
    }
}
