ghost use Rattle.std.specs.Prelude.{◌≡◌, ◌≢◌, ◌++◌, ◌↔◌, codes, IsNone, IfSome, IfOk, option_map, string_bytes};
ghost use Rattle.readout.specs.Told.{IsNumber};

use std::alloc::{AllocError, Global};

/// A word of an answer, or nothing where it says that nothing is known.
pub(crate) fn known(word: &str) -> Option<&str>
    ensures unknown { IsNone result ↔ (word.now ≡ codes "-") }
    ensures same { IfSome result (λ known. known.now ≡ word.now) }
{
    if word == "-" { None } else { Some(word) }
}

/// A copy of a text, if there is one.
pub(crate) fn owned(alloc: Global, text: Option<&str>) -> Result<Option<String>, AllocError>
    ensures { IfOk result (λ copy. option_map string_bytes copy ≡ option_map (λ t. t.now) text.entry) }
{
    match text {
        Some(text) => Ok(Some(String::from_str(alloc, text)?)),
        None => Ok(None),
    }
}

/// The first word of a text, and what stands behind its space.
pub(crate) fn first_word(text: &str) -> Option<(&str, &str)>
    ensures { IfSome result (λ parts. text.now ≡ parts.0.now ++ codes " " ++ parts.1.now) }
{
    text.split_once(' ')
}

/// What stands behind these words at the front of a text.
pub(crate) fn behind<'a>(text: &'a str, words: &str) -> Option<&'a str>
    ensures { IfSome result (λ rest. text.now ≡ words.now ++ rest.now) }
{
    text.strip_prefix(words)
}

/// The number that a word is.
pub(crate) fn read_number(word: &str) -> Option<u32>
    ensures { IfSome result (λ number. IsNumber word.now number) }
{
    word.parse().ok()
}
