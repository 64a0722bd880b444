ghost use Rattle.std.specs.Prelude.{◌≡◌, ◌==◌, length, IfOk};
ghost use Rattle.std.specs.List.{list_any, slice_split};
ghost use Rattle.std.specs.Option.{option_map};
ghost use Rattle.script.specs.TextLines.{AreWords, texts};
ghost use Rattle.script.specs.Reading.{IsReading};

use std::alloc::{AllocError, Global};

/// The words of a line, if none of them is empty.
pub(crate) fn words_of(alloc: Global, line: &str) -> Result<Option<Vec<&str>>, AllocError>
    ensures { IfOk result (λ found. IsReading AreWords line.now
        (option_map (λ words. texts words.items) found)) }
{
    let words = cut(alloc, line)?;
    if has_empty_word(&words) {
        return Ok(None);
    }
    Ok(Some(words))
}

fn cut(alloc: Global, line: &str) -> Result<Vec<&str>, AllocError>
    ensures { IfOk result (λ words. texts words.items ≡ slice_split (λ c. c == 32) line.now) }
{
    line.split(' ').collect(alloc)
}

fn has_empty_word(words: &[&str]) -> bool
    ensures { result ≡ list_any (λ word. length word.now == 0) words.now }
{
    words.iter().any(|word| word.is_empty())
}
