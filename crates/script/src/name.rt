ghost use Rattle.std.specs.Prelude.{◌≡◌, IfOk};
ghost use Rattle.script.specs.Word.{name_of};

use desk_core::Name;
use std::alloc::{AllocError, Global};

const EMPTY_NAME: &str = "-";

/// The name that a word stands for.
pub(crate) fn name_of(word: &str) -> &str
    ensures { result.now ≡ name_of word.now }
{
    if word == EMPTY_NAME { "" } else { word }
}

pub(crate) fn read_name(alloc: Global, word: &str) -> Result<Name, AllocError>
    ensures { IfOk result (λ name. name ≡ name_of word.now) }
{
    let text = String::from_str(alloc, name_of(word))?;
    Ok(Name::new(text))
}
