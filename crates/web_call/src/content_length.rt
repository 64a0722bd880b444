ghost use Rattle.std.specs.Prelude.{◌≡◌, ◌≤◌, if◌then◌else◌, length, map, All, IsTrue, Some, None};
ghost use Rattle.std.specs.Char.{is_ascii_digit};
ghost use Rattle.std.specs.List.{list_all};
ghost use Rattle.std.specs.Option.{option_map};
ghost use Rattle.std.specs.Str.Parse.{digits_value};
ghost use Rattle.httparse.specs.Spans.{IsHeaderWithin, header_bytes};
ghost use Rattle.web_call.specs.ContentLength.{content_length, is_length, length_of};

use crate::lines::{count_named, first_named};
use httparse::spans::HeaderSpan;

const NAME: &[u8] = b"content-length";

const MAX_DIGITS: usize = 18;

/// The length of the body: 0 without a line that tells it, and none where two lines do, or the line tells no length.
pub(crate) fn content_length(head: &[u8], lines: &[HeaderSpan]) -> Option<u64>
    requires { All (IsHeaderWithin (length head.now)) lines.now }
    ensures { result ≡ content_length (map (header_bytes head.now) lines.now) }
{
    if count_named(head, lines, NAME) > 1 {
        return None;
    }
    length_of(first_named(head, lines, NAME))
}

/// The length that the value of the line tells: 0 without a line, and none where the value is no length.
pub fn length_of(value: Option<&[u8]>) -> Option<u64>
    ensures { result ≡ length_of (option_map (λ bytes. bytes.now) value.entry) }
{
    match value {
        Some(digits) if is_length(digits) => Some(value_of_digits(digits)),
        Some(_) => None,
        None => Some(0),
    }
}

fn is_length(value: &[u8]) -> bool
    ensures { result ≡ is_length value.now }
{
    !value.is_empty() && value.len() <= MAX_DIGITS && all_digits(value)
}

fn all_digits(text: &[u8]) -> bool
    ensures { result ≡ list_all is_ascii_digit text.now }
{
    text.iter().all(|c| c.is_ascii_digit())
}

fn value_of_digits(digits: &[u8]) -> u64
    requires digits { IsTrue (list_all is_ascii_digit digits.now) }
    requires short { length digits.now ≤ 18 }
    ensures { result ≡ digits_value 10 digits.now }
{
    let mut number = 0;
    for digit in digits {
        number = number * 10 + u64::from(*digit - b'0');
    }
    number
}
