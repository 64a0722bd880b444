ghost use Rattle.std.specs.Prelude.{◌≡◌, ◌<◌, ◌∷◌, length, position};
ghost use Rattle.std.specs.List.{list_all, before_first, after_first};
ghost use Rattle.std.specs.Option.{option_map};
ghost use Rattle.grpc_frame.specs.Lines.{lines, is_colon, has_colon, trim, trim_start, trim_end, is_named, value, value_of};

/// Whether each line of the block has a colon.
pub(crate) fn have_colons(block: &[u8]) -> bool
    ensures { result ≡ list_all has_colon (lines block.now) }
{
    let mut rest = block;
    while !rest.is_empty() {
        let (line, behind) = first_line(rest);
        if !line.contains(&b':') {
            return false;
        }
        rest = behind;
    }
    true
}

/// The value of the first line of this name.
pub(crate) fn value_of<'a>(block: &'a [u8], name: &[u8]) -> Option<&'a [u8]>
    ensures { option_map (λ value. value.now) result ≡ value_of name.now (lines block.now) }
{
    let mut rest = block;
    while !rest.is_empty() {
        let (line, behind) = first_line(rest);
        if is_named(line, name) {
            return Some(value(line));
        }
        rest = behind;
    }
    None
}

fn first_line(bytes: &[u8]) -> (&[u8], &[u8])
    requires { 0 < length bytes.now }
    ensures line { lines bytes.now ≡ result.0.now ∷ lines result.1.now }
    ensures shorter { length result.1.now < length bytes.now }
{
    for i in 1..bytes.len() {
        if bytes[i - 1] == b'\r' && bytes[i] == b'\n' {
            return (&bytes[..i - 1], &bytes[i + 1..]);
        }
    }
    (bytes, &[])
}

fn is_named(line: &[u8], name: &[u8]) -> bool
    ensures { result ≡ is_named name.now line.now }
{
    parts(line).0.eq_ignore_ascii_case(name)
}

fn value(line: &[u8]) -> &[u8]
    ensures { result.now ≡ value line.now }
{
    trim(parts(line).1)
}

// What stands round the first colon: without one, all and nothing.
fn parts(line: &[u8]) -> (&[u8], &[u8])
    ensures before { result.0.now ≡ before_first is_colon line.now }
    ensures after { result.1.now ≡ after_first is_colon line.now }
{
    match colon_at(line) {
        Some(at) => (&line[..at], &line[at + 1..]),
        None => (line, &[]),
    }
}

fn colon_at(line: &[u8]) -> Option<usize>
    ensures { result ≡ position is_colon line.now }
{
    line.iter().position(|c| *c == b':')
}

/// The value of a header line without the spaces and tabs at both ends (RFC 9112, section 5).
pub fn trim(bytes: &[u8]) -> &[u8]
    ensures { result.now ≡ trim bytes.now }
{
    trim_end(trim_start(bytes))
}

fn trim_start(bytes: &[u8]) -> &[u8]
    ensures { result.now ≡ trim_start bytes.now }
{
    let mut trimmed = bytes;
    while let [b' ' | b'\t', rest @ ..] = trimmed {
        trimmed = rest;
    }
    trimmed
}

fn trim_end(bytes: &[u8]) -> &[u8]
    ensures { result.now ≡ trim_end bytes.now }
{
    let mut trimmed = bytes;
    while let [rest @ .., b' ' | b'\t'] = trimmed {
        trimmed = rest;
    }
    trimmed
}
