ghost use Rattle.script.specs.Line.{IsRule, IsThreshold, IsMaskOf};
ghost use Rattle.script.specs.TextLines.{texts};
ghost use Rattle.script.specs.Reading.{IsReading};

use crate::name::name_of;
use crate::number::number_of;
use desk_core::Catalogue;
use probe_core::{Rule, Start};

/// The rule that words give.
pub(crate) fn rule_of(catalogue: &Catalogue, words: &[&str]) -> Option<Rule>
    ensures { IsReading (IsRule catalogue.now) (texts words.now) result }
{
    if let ["threshold", counts @ ..] = words {
        return threshold_of(counts);
    }
    if let ["depends", names @ ..] = words {
        return Some(Rule::Depends(mask_of(catalogue, names)?));
    }
    match words {
        ["manual"] => Some(Rule::Manual),
        _ => None,
    }
}

/// The threshold that has these words behind its own.
fn threshold_of(words: &[&str]) -> Option<Rule>
    ensures { IsReading IsThreshold (texts words.now) result }
{
    let (fall, rise, start) = match words {
        [fall] => (number_of(fall), Some(1), Start::Up),
        [fall, rise] => (number_of(fall), number_of(rise), Start::Up),
        [fall, rise, "unknown"] => (number_of(fall), number_of(rise), Start::Unknown),
        _ => return None,
    };
    Some(Rule::Threshold(fall?, rise?, start))
}

/// The slots of the words' names, if all are listed: bit i is slot i.
fn mask_of(catalogue: &Catalogue, words: &[&str]) -> Option<u16>
    ensures { IsReading (IsMaskOf catalogue.now) (texts words.now) result }
{
    let mut mask = 0;
    for word in words {
        let slot = catalogue.slot(name_of(word))?;
        mask |= 1 << slot.number();
    }
    Some(mask)
}
