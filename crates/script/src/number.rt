ghost use Rattle.std.specs.Prelude.{◌≡◌};
ghost use Rattle.std.specs.Char.{is_ascii_digit};
ghost use Rattle.std.specs.List.{list_all};
ghost use Rattle.script.specs.Reading.{IsReading};
ghost use Rattle.script.specs.Word.{IsNumber};

const MAX_DIGITS: usize = 10;

/// The number that a word writes in ASCII digits, without a sign.
pub(crate) fn number_of(word: &str) -> Option<u32>
    ensures { IsReading IsNumber word.now result }
{
    if word.len() > MAX_DIGITS || !has_only_digits(word) {
        return None;
    }
    word.parse().ok()
}

fn has_only_digits(word: &str) -> bool
    ensures { result ≡ list_all is_ascii_digit word.now }
{
    word.bytes().all(|c| c.is_ascii_digit())
}
