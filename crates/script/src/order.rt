ghost use Rattle.std.specs.Prelude.{◌≡◌, Some, IfOk};
ghost use Rattle.script.specs.Line.{IsOrder, IsOrderText};
ghost use Rattle.script.specs.TextLines.{texts};
ghost use Rattle.script.specs.Reading.{IsReading};
ghost use Rattle.script.specs.Word.{name_of};

use crate::name::read_name;
use crate::words::words_of;
use desk_core::{Finding, Order, Setting};
use std::alloc::{AllocError, Global};

/// The order that a line's text gives.
pub(crate) fn read_order(alloc: Global, text: &str) -> Result<Option<Order>, AllocError>
    ensures { IfOk result (λ order. IsReading IsOrderText text.now order) }
{
    match words_of(alloc, text)? {
        Some(words) => order_of(alloc, &words),
        None => Ok(None),
    }
}

/// The order that words give.
pub(crate) fn order_of(alloc: Global, words: &[&str]) -> Result<Option<Order>, AllocError>
    ensures { IfOk result (λ order. IsReading IsOrder (texts words.now) order) }
{
    match words {
        ["pass", name] => observe_order(alloc, name, Finding::Pass),
        ["fail", name] => observe_order(alloc, name, Finding::Fail),
        ["up", name] => set_order(alloc, name, Setting::Up),
        ["down", name] => set_order(alloc, name, Setting::Down),
        ["shutdown"] => Ok(Some(Order::Shutdown)),
        ["resume"] => Ok(Some(Order::Resume)),
        _ => Ok(None),
    }
}

/// The report of this finding for the service of this name.
fn observe_order(alloc: Global, name: &str, finding: Finding) -> Result<Option<Order>, AllocError>
    ensures { IfOk result (λ order. order ≡ Some (Order.Observe (name_of name.now) finding)) }
{
    Ok(Some(Order::Observe(read_name(alloc, name)?, finding)))
}

/// The order that sets the service of this name so.
fn set_order(alloc: Global, name: &str, setting: Setting) -> Result<Option<Order>, AllocError>
    ensures { IfOk result (λ order. order ≡ Some (Order.Set (name_of name.now) setting)) }
{
    Ok(Some(Order::Set(read_name(alloc, name)?, setting)))
}
