ghost use Rattle.std.specs.Prelude.{◌≡◌, length, map, All};
ghost use Rattle.std.specs.Option.{option_map};
ghost use Rattle.httparse.specs.Spans.{IsHeaderWithin, header_bytes};
ghost use Rattle.web_call.specs.Lines.{count_named, first_named, is_named};

use httparse::spans::HeaderSpan;

/// How many header lines of the head have this name.
pub fn count_named(head: &[u8], lines: &[HeaderSpan], name: &[u8]) -> usize
    requires { All (IsHeaderWithin (length head.now)) lines.now }
    ensures { result ≡ count_named name.now (map (header_bytes head.now) lines.now) }
{
    let mut count = 0;
    for line in lines {
        if is_named(head, line, name) {
            count += 1;
        }
    }
    count
}

/// The value of the first header line of this name, without the spaces and tabs at its ends.
pub fn first_named<'a>(head: &'a [u8], lines: &[HeaderSpan], name: &[u8]) -> Option<&'a [u8]>
    requires { All (IsHeaderWithin (length head.now)) lines.now }
    ensures { option_map (λ value. value.now) result
        ≡ first_named name.now (map (header_bytes head.now) lines.now) }
{
    for line in lines {
        if is_named(head, line, name) {
            return Some(line.value.of(head));
        }
    }
    None
}

/// Whether the header line has this name, but for the case of ASCII letters.
pub fn is_named(head: &[u8], line: &HeaderSpan, name: &[u8]) -> bool
    requires { IsHeaderWithin (length head.now) line.now }
    ensures { result ≡ is_named name.now (header_bytes head.now line.now) }
{
    line.name.of(head).eq_ignore_ascii_case(name)
}
