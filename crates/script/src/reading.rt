ghost use Rattle.std.specs.Prelude.{◌≡◌, ◌≢◌, ◌+◌, ◌^◌, ◌<◌, ◌↔◌, length, IsTrue, IfOk, IfErr};
ghost use Rattle.script.specs.TextLines.{Left, first_numbers};
ghost use Rattle.script.specs.Reading.{IsReading};
ghost use Rattle.script.specs.Script.{IsGo, IsNextLine, IsNextExpectation, Parts, TakesLines, IsLinesFault, AreOrders, IsOrdersFault, IsText, IsScript, IsScriptFault};

use crate::expectation::{Expectation, ScriptExpectation, read_expectation};
use crate::line::{Line, read_line};
use crate::opening::{read_catalogue, read_max};
use crate::order::read_order;
use crate::script::{Mode, Script};
use crate::script_fault::ScriptFault;
use crate::text_lines::Lines;
use desk_core::{Catalogue, Order};
use std::alloc::{AllocError, Global};

pub(crate) const MAX_LEN: usize = 65_536;

/// Reads the bytes as a script, up to the first fault.
pub fn read_script(alloc: Global, bytes: &[u8], mode: Mode) -> Result<Script, ScriptFault>
    ensures ok { IfOk result (λ script. IsScript mode bytes.now script) }
    ensures fault { IfErr result (λ fault. fault ≢ ScriptFault.NoMemory
        → IsScriptFault mode bytes.now fault) }

    // Running out of memory comes after too many bytes and after bytes that are no text.
    ensures no_memory { IfErr result (λ fault. fault ≡ ScriptFault.NoMemory → IsText bytes.now) }
{
    if bytes.len() > MAX_LEN {
        return Err(ScriptFault::TooLong);
    }
    let Ok(text) = str::from_utf8(bytes) else {
        return Err(ScriptFault::NotText);
    };
    let mut lines = Lines::new(mode, text);
    let catalogue = read_catalogue(alloc, &mut lines)?;
    let max = read_max(alloc, mode, &mut lines)?;
    let body = read_lines(alloc, mode, &catalogue, &mut lines)?;
    let orders = read_orders(alloc, &mut lines)?;
    Ok(Script::new(
        catalogue,
        max,
        body.taken,
        body.numbers,
        body.expectations,
        orders,
    ))
}

/// What stands between the opening of a script and the line `go`.
#[derive(Drop)]
struct Body {
    taken: Vec<Line>,
    numbers: Vec<u32>,
    expectations: Vec<ScriptExpectation>,
}

/// Takes the lines up to `go`, and `go` itself, or to the end.
fn read_lines(
    alloc: Global,
    mode: Mode,
    catalogue: &Catalogue,
    lines: &mut Lines<'_>,
) -> Result<Body, ScriptFault>
    ensures ok { IfOk result (λ body. (others : Left)
        × Parts mode lines.old body.expectations.items others
        × TakesLines mode catalogue.now 0 others.lines body.taken.items lines.new.lines
        × (body.numbers.items ≡ first_numbers (length body.taken.items) others.lines)) }
    ensures each { IfOk result (λ body. length body.numbers.items ≡ length body.taken.items) }
    ensures fault { IfErr result (λ fault. fault ≢ ScriptFault.NoMemory
        → IsLinesFault mode catalogue.now 0 lines.old.lines fault) }
{
    let mut taken = Vec::new(alloc);
    let mut numbers = Vec::new(alloc);
    let mut expectations = Vec::new(alloc);
    let mut watches = 0;
    while let Ok((number, text)) = lines.next() {
        if is_go(mode, text) {
            return Ok(Body {
                taken,
                numbers,
                expectations,
            });
        }
        if let Some(expectation) = next_expectation(alloc, mode, text)? {
            let behind = taken.len();
            expectations.push(ScriptExpectation {
                expectation,
                number,
                behind,
            })?;
            continue;
        }
        let Some(line) = next_line(alloc, mode, catalogue, watches, text)? else {
            return Err(ScriptFault::BadLine(number));
        };
        watches = line.watches_after(watches);
        taken.push(line)?;
        numbers.push(number)?;
    }
    Ok(Body {
        taken,
        numbers,
        expectations,
    })
}

fn is_go(mode: Mode, text: &str) -> bool
    ensures { IsTrue result ↔ IsGo mode text.now }
{
    mode == Mode::Serve && text == "go"
}

/// The expectation that a text gives, if it may stand in the script.
pub(crate) fn next_expectation(
    alloc: Global,
    mode: Mode,
    text: &str,
) -> Result<Option<Expectation>, AllocError>
    ensures { IfOk result (λ expectation.
        IsReading (IsNextExpectation mode) text.now expectation) }
{
    match mode {
        Mode::Run => read_expectation(alloc, text),
        Mode::Replay | Mode::Serve => Ok(None),
    }
}

/// The line that a text gives, if it may stand behind lines that opened so many watches.
pub(crate) fn next_line(
    alloc: Global,
    mode: Mode,
    catalogue: &Catalogue,
    watches: usize,
    text: &str,
) -> Result<Option<Line>, AllocError>
    ensures { IfOk result (λ line.
        IsReading (IsNextLine mode catalogue.now watches) text.now line) }
{
    let Some(line) = read_line(alloc, catalogue, text)? else {
        return Ok(None);
    };
    if !line.is_allowed(mode, watches) {
        return Ok(None);
    }
    Ok(Some(line))
}

/// Takes all lines as orders.
fn read_orders(alloc: Global, lines: &mut Lines<'_>) -> Result<Vec<Order>, ScriptFault>
    ensures ok { IfOk result (λ orders. AreOrders lines.old.lines orders.items) }
    ensures fault { IfErr result (λ fault. fault ≢ ScriptFault.NoMemory
        → IsOrdersFault lines.old.lines fault) }
{
    let mut orders = Vec::new(alloc);
    while let Ok((number, text)) = lines.next() {
        match read_order(alloc, text)? {
            Some(order) => orders.push(order)?,
            None => return Err(ScriptFault::BadLine(number)),
        }
    }
    Ok(orders)
}
