ghost use Rattle.std.specs.Prelude.{◌≡◌, ◌≤◌, length, map, All, IfOk};
ghost use Rattle.std.specs.List.{list_any};
ghost use Rattle.httparse.specs.Spans.{IsHeaderWithin, header_bytes};
ghost use Rattle.client.specs.ResponseBody.{most_content};
ghost use Rattle.client.specs.HttpFraming.{IsFramed, framing_in, is_chunked, max_chunked, only_length};

use crate::ask_fault::AskFault;
use httparse::Status;
use httparse::spans::{EMPTY_HEADER_SPAN, HeaderSpan, parse_response};
use web_call::{MAX_LINES, Method, count_named, first_named, is_named, is_too_large, length_of};

/// The longest body that is read by its length, and the most content of a Check's chunks, in bytes.
const MAX_BODY_LEN: usize = 1_048_576;

/// The most bytes of content that are read in a Watch's chunks, whose lines don't count: some hundred and fifty million statuses.
const MAX_CHUNKED_LEN: usize = 1_073_741_824;

const OK: u16 = 200;

const LENGTH: &[u8] = b"content-length";

/// How the end of a body is told (RFC 9112, section 6).
#[derive(Clone, Copy)]
pub(crate) enum Framing {
    /// With so many bytes of content at the most.
    Chunked(usize),
    /// So many bytes, at most 1,048,576.
    Length(usize),
}

/// What the head of a response says of its body, or the fault of one that tells no status of gRPC.
pub(crate) fn framing_of(method: Method, head: &[u8]) -> Result<Framing, AskFault>
    ensures says { IsFramed method head.now result }
    ensures within { IfOk result (λ framing. most_content framing ≤ 1073741824) }
{
    if is_too_large(head) {
        return Err(AskFault::BadResponse);
    }
    let mut lines = [EMPTY_HEADER_SPAN; MAX_LINES];
    let Ok(Status::Complete(response)) = parse_response(head, &mut lines) else {
        return Err(AskFault::BadResponse);
    };
    if response.len != head.len() {
        return Err(AskFault::BadResponse);
    }
    if response.code != OK {
        return Err(AskFault::Http(response.code));
    }
    framing_in(method, head, &lines[..response.headers])
}

/// Chunks count before a length (RFC 9112, section 6.3).
fn framing_in(method: Method, head: &[u8], lines: &[HeaderSpan]) -> Result<Framing, AskFault>
    requires { All (IsHeaderWithin (length head.now)) lines.now }
    ensures says { result ≡ framing_in method (map (header_bytes head.now) lines.now) }
    ensures within { IfOk result (λ framing. most_content framing ≤ 1073741824) }
{
    if has_chunked(head, lines) {
        return Ok(Framing::Chunked(most_chunked(method)));
    }
    match only_length(head, lines) {
        Some(len) if len <= MAX_BODY_LEN as u64 => Ok(Framing::Length(len as usize)),
        _ => Err(AskFault::BadResponse),
    }
}

/// The most bytes of content that are read in chunks: only a Watch's answer grows with time.
fn most_chunked(method: Method) -> usize
    ensures { result ≡ max_chunked method }
{
    match method {
        Method::Check => MAX_BODY_LEN,
        Method::Watch => MAX_CHUNKED_LEN,
    }
}

fn has_chunked(head: &[u8], lines: &[HeaderSpan]) -> bool
    requires { All (IsHeaderWithin (length head.now)) lines.now }
    ensures { result ≡ list_any is_chunked (map (header_bytes head.now) lines.now) }
{
    for line in lines {
        if is_chunked(head, line) {
            return true;
        }
    }
    false
}

fn is_chunked(head: &[u8], line: &HeaderSpan) -> bool
    requires { IsHeaderWithin (length head.now) line.now }
    ensures { result ≡ is_chunked (header_bytes head.now line.now) }
{
    is_named(head, line, b"transfer-encoding")
        && line.value.of(head).eq_ignore_ascii_case(b"chunked")
}

/// The length that the one line `content-length` tells.
fn only_length(head: &[u8], lines: &[HeaderSpan]) -> Option<u64>
    requires { All (IsHeaderWithin (length head.now)) lines.now }
    ensures { result ≡ only_length (map (header_bytes head.now) lines.now) }
{
    if count_named(head, lines, LENGTH) != 1 {
        return None;
    }
    length_of(first_named(head, lines, LENGTH))
}
