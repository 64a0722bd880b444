//! What a web browser sends to a port that a web page has it connect to.

ghost use Rattle.std.specs.Prelude.{◌≡◌, ◌==◌, ◌↔◌, IsTrue, position};
ghost use Rattle.std.specs.List.{after_first};
ghost use Rattle.control.specs.WebLine.{IsHandshake, IsHostLine, IsRequestLine, IsWebLine};

/// Whether a browser begins what it sends by such a line, or has it among its header lines. No session does.
pub(crate) fn is_web_line(line: &[u8]) -> bool
    ensures { IsTrue result ↔ IsWebLine line.now }
{
    is_request_line(line) || is_host_line(line) || is_handshake(line)
}

fn is_request_line(line: &[u8]) -> bool
    ensures { IsTrue result ↔ IsRequestLine line.now }
{
    after_space(after_space(line)).starts_with(b"HTTP/")
}

fn after_space(text: &[u8]) -> &[u8]
    ensures { result.now ≡ after_first (λ byte. byte == 32) text.now }
{
    match space_in(text) {
        Some(at) => &text[at + 1..],
        None => &[],
    }
}

fn space_in(text: &[u8]) -> Option<usize>
    ensures { result ≡ position (λ byte. byte == 32) text.now }
{
    text.iter().position(|byte| *byte == b' ')
}

fn is_host_line(line: &[u8]) -> bool
    ensures { IsTrue result ↔ IsHostLine line.now }
{
    let len = line.len().min(5);
    line[..len].eq_ignore_ascii_case(b"host:")
}

fn is_handshake(line: &[u8]) -> bool
    ensures { IsTrue result ↔ IsHandshake line.now }
{
    line.starts_with(&[22, 3])
}
