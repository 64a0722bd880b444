ghost use Rattle.std.specs.Prelude.{◌≡◌, ◌==◌, IfOk, map, option_map, string_bytes};
ghost use Rattle.std.specs.List.{slice_split};
ghost use Rattle.readout.specs.Names.{name_of, names_of};

use std::alloc::{AllocError, Global};

/// The names of a list's answer, `-` for the empty one. A word without a status is left out.
pub fn names_in(alloc: Global, answer: &str) -> Result<Vec<String>, AllocError>
    ensures { IfOk result (λ names. map string_bytes names.items ≡ names_of answer.now) }
{
    let words = words_in(alloc, answer)?;
    let mut names = Vec::new(alloc);
    for word in &words {
        if let Some(name) = name_of(word) {
            names.push(String::from_str(alloc, name)?)?;
        }
    }
    Ok(names)
}

fn words_in(alloc: Global, answer: &str) -> Result<Vec<&str>, AllocError>
    ensures { IfOk result
        (λ words. map (λ word. word.now) words.items ≡ slice_split (λ c. c == 32) answer.now) }
{
    answer.split(' ').collect(alloc)
}

/// What stands before a word's last `=`. A name may hold that sign, and a status does not.
fn name_of(word: &str) -> Option<&str>
    ensures { option_map (λ name. name.now) result ≡ name_of word.now }
{
    let (name, _) = word.rsplit_once('=')?;
    Some(name)
}
