ghost use Rattle.std.specs.Prelude.{IfOk};
ghost use Rattle.script.specs.Expectation.{IsExpectation, IsExpectationText, IsSeconds};
ghost use Rattle.script.specs.TextLines.{texts};
ghost use Rattle.script.specs.Reading.{IsReading};

use crate::name::read_name;
use crate::number::number_of;
use crate::words::words_of;
use desk_core::Name;
use std::alloc::{AllocError, Global};

const MAX_SECONDS: u32 = 86_400;

/// A service has to be reported at least every so many seconds. 0 seconds end that.
#[derive(Drop)]
pub struct Expectation {
    pub name: Name,
    pub seconds: u32,
}

/// An expectation of a script, with the number of its line in the text.
#[derive(Drop)]
pub struct ScriptExpectation {
    pub expectation: Expectation,
    pub number: u32,
    /// How many of the script's lines stand before it.
    pub behind: usize,
}

/// The expectation that a text gives.
pub fn read_expectation(alloc: Global, text: &str) -> Result<Option<Expectation>, AllocError>
    ensures { IfOk result (λ expectation. IsReading IsExpectationText text.now expectation) }
{
    match words_of(alloc, text)? {
        Some(words) => expectation_of(alloc, &words),
        None => Ok(None),
    }
}

/// The expectation that words give.
fn expectation_of(alloc: Global, words: &[&str]) -> Result<Option<Expectation>, AllocError>
    ensures { IfOk result (λ expectation.
        IsReading IsExpectation (texts words.now) expectation) }
{
    match words {
        ["expect", name, word] => match seconds_of(word) {
            Some(seconds) => {
                let name = read_name(alloc, name)?;
                Ok(Some(Expectation { name, seconds }))
            }
            None => Ok(None),
        },
        _ => Ok(None),
    }
}

fn seconds_of(word: &str) -> Option<u32>
    ensures { IsReading IsSeconds word.now result }
{
    match number_of(word) {
        Some(seconds) if seconds <= MAX_SECONDS => Some(seconds),
        _ => None,
    }
}
