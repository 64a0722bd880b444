ghost use Rattle.std.specs.Prelude.{◌≡◌, ℕ, List, [], ◌∷◌, codes, Some, IfOk};
ghost use Rattle.script.specs.Line.{IsLine, IsLineText};
ghost use Rattle.script.specs.TextLines.{texts};
ghost use Rattle.script.specs.Reading.{IsReading};
ghost use Rattle.script.specs.Word.{name_of};

use crate::name::read_name;
use crate::number::number_of;
use crate::order::order_of;
use crate::rule::rule_of;
use crate::script::Mode;
use crate::words::words_of;
use desk_core::{Call, Catalogue, Name, Order};
use probe_core::Rule;
use std::alloc::{AllocError, Global};

/// What a line of a script says.
#[derive(Drop)]
pub enum Line {
    Register(Name, Rule),
    Retire(Name),
    Order(Order),
    Check(Name),
    Open(Name),
    /// A step of the watch with this number, which counts from 0 in the order of the opening lines.
    Step(u32),
    Board,
}

impl Line {
    ghost use Rattle.std.specs.Prelude.{◌≡◌, ◌+◌, ◌^◌, ◌<◌, ◌↔◌, IsTrue, IfSome};
    ghost use Rattle.desk_core.specs.Mutation.{rule_of};
    ghost use Rattle.desk_core.specs.Order.{IsListed};
    ghost use Rattle.script.specs.Change.{line_change};
    ghost use Rattle.script.specs.Rules.{rule_in};
    ghost use Rattle.script.specs.Script.{IsAllowed, watches_after};

    /// The rule by which the line registers a service.
    pub(crate) fn rule(&self) -> Option<Rule>
        ensures { result ≡ rule_in self.now }
    {
        match self {
            Line::Register(_, rule) => Some(*rule),
            _ => None,
        }
    }

    /// The change that the line asks for, if it asks for one; the change is none where its name is not listed.
    pub fn call(&self, catalogue: &Catalogue) -> Option<Option<Call>>
        ensures change { result ≡ line_change catalogue.now self.now }
        ensures listed { IfSome result (λ change. IfSome change (IsListed catalogue.now)) }
        ensures ruled { IfSome result (λ change.
            IfSome change (λ call. rule_of call ≡ rule_in self.now)) }
    {
        match self {
            Line::Register(name, rule) => {
                let slot = catalogue.slot(name.as_str());
                Some(slot.map(|slot| Call::Register(slot, *rule)))
            }
            Line::Retire(name) => Some(catalogue.slot(name.as_str()).map(Call::Retire)),
            Line::Order(order) => Some(order.call(catalogue)),
            Line::Check(_) | Line::Open(_) | Line::Step(_) | Line::Board => None,
        }
    }

    /// Whether the line may stand behind lines that opened so many watches.
    pub(crate) fn is_allowed(&self, mode: Mode, watches: usize) -> bool
        ensures { IsTrue result ↔ IsAllowed mode watches self.now }
    {
        match (mode, self) {
            (Mode::Replay, Line::Step(watch)) => (*watch as usize) < watches,
            (
                Mode::Serve | Mode::Run,
                Line::Check(_) | Line::Open(_) | Line::Step(_) | Line::Board,
            ) => false,
            _ => true,
        }
    }

    /// How many watches there are after the line.
    pub(crate) fn watches_after(&self, watches: usize) -> usize
        requires { watches + 1 < 2 ^ 64 }
        ensures { result ≡ watches_after self.now watches }
    {
        match self {
            Line::Open(_) => watches + 1,
            _ => watches,
        }
    }
}

/// The line that a text gives.
pub fn read_line(
    alloc: Global,
    catalogue: &Catalogue,
    text: &str,
) -> Result<Option<Line>, AllocError>
    ensures { IfOk result (λ line. IsReading (IsLineText catalogue.now) text.now line) }
{
    match words_of(alloc, text)? {
        Some(words) => line_of(alloc, catalogue, &words),
        None => Ok(None),
    }
}

fn line_of(alloc: Global, catalogue: &Catalogue, words: &[&str]) -> Result<Option<Line>, AllocError>
    ensures { IfOk result (λ line. IsReading (IsLine catalogue.now) (texts words.now) line) }
{
    if let ["register", name, rule @ ..] = words {
        return register_line(alloc, catalogue, name, rule);
    }
    match words {
        ["retire", name] => retire_line(alloc, name),
        ["check", name] => check_line(alloc, name),
        ["open", name] => open_line(alloc, name),
        ["step", word] => Ok(step_line(word)),
        ["board"] => Ok(Some(Line::Board)),
        _ => match order_of(alloc, words)? {
            Some(order) => Ok(Some(Line::Order(order))),
            None => Ok(None),
        },
    }
}

/// The line `register` of this name and rule, if the rule reads.
fn register_line(
    alloc: Global,
    catalogue: &Catalogue,
    name: &str,
    rule: &[&str],
) -> Result<Option<Line>, AllocError>
    ensures { IfOk result (λ line. IsReading (IsLine catalogue.now)
        (codes "register" ∷ name.now ∷ texts rule.now) line) }
{
    match rule_of(catalogue, rule) {
        Some(rule) => Ok(Some(Line::Register(read_name(alloc, name)?, rule))),
        None => Ok(None),
    }
}

/// The line `retire` of this name.
fn retire_line(alloc: Global, name: &str) -> Result<Option<Line>, AllocError>
    ensures { IfOk result (λ line. line ≡ Some (Line.Retire (name_of name.now))) }
{
    Ok(Some(Line::Retire(read_name(alloc, name)?)))
}

/// The line `check` of this name.
fn check_line(alloc: Global, name: &str) -> Result<Option<Line>, AllocError>
    ensures { IfOk result (λ line. line ≡ Some (Line.Check (name_of name.now))) }
{
    Ok(Some(Line::Check(read_name(alloc, name)?)))
}

/// The line `open` of this name.
fn open_line(alloc: Global, name: &str) -> Result<Option<Line>, AllocError>
    ensures { IfOk result (λ line. line ≡ Some (Line.Open (name_of name.now))) }
{
    Ok(Some(Line::Open(read_name(alloc, name)?)))
}

/// The line `step` of this number, if it is one.
fn step_line(word: &str) -> Option<Line>
    ensures { (names : List (List ℕ))
        → IsReading (IsLine names) (codes "step" ∷ word.now ∷ []) result }
{
    Some(Line::Step(number_of(word)?))
}
