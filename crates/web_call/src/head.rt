ghost use Rattle.std.specs.Prelude.{◌≡◌, length, map, count_by, ◌==◌, All};
ghost use Rattle.httparse.specs.Spans.{IsHeaderWithin, IsWithin, header_bytes, span_bytes};
ghost use Rattle.web_call.specs.Head.{IsHeaded, answer_to, is_too_large};
ghost use Rattle.web_call.specs.HeadAnswer.{HasBodyLength, HasRefusal, HasStatusText, headed_as};

use crate::Method;
use crate::content_length::content_length;
use crate::content_type::has_grpc_web;
use crate::head_limits::{HEAD_END, MAX_HEAD_LEN, MAX_LINE_FEEDS, MAX_LINES};
use crate::lines::first_named;
use crate::method::method_of;
use grpc_frame::Code;
use httparse::Status;
use httparse::spans::{EMPTY_HEADER_SPAN, HeaderSpan, RequestSpans, parse_request};

const MAX_BODY_LEN: u64 = 8192;

const POST: &[u8] = b"POST";

/// What the head of a request asks for, or the answer that refuses it.
#[derive(Clone, Copy, PartialEq, Eq)]
pub enum Headed {
    /// A status code of HTTP.
    Http(u16),
    /// A status of gRPC, and its text.
    Status(Code, &'static str),
    /// A method, and the length of the body that says what it is asked.
    Body { method: Method, length: u32 },
}

/// Reads the head of a request, which is all bytes up to the body, or the first 8,192 where it had no end by then.
pub fn head_of(head: &[u8]) -> Headed
    ensures headed { IsHeaded head.now (headed_as result) }
    ensures http { HasRefusal (headed_as result) }
    ensures text { HasStatusText (headed_as result) }
    ensures length { HasBodyLength (headed_as result) }
{
    if is_too_large(head) {
        return Headed::Http(431);
    }
    let mut lines = [EMPTY_HEADER_SPAN; MAX_LINES];
    let Ok(Status::Complete(request)) = parse_request(head, &mut lines) else {
        return Headed::Http(400);
    };
    if request.len != head.len() {
        return Headed::Http(400);
    }
    answer_to(head, &request, &lines[..request.headers])
}

/// Whether the bytes are no head within the limits of `MAX_HEAD_LEN` and `MAX_LINE_FEEDS`.
pub fn is_too_large(head: &[u8]) -> bool
    ensures { result ≡ is_too_large head.now }
{
    head.len() >= MAX_HEAD_LEN && !head.ends_with(HEAD_END) || line_feeds(head) > MAX_LINE_FEEDS
}

fn line_feeds(head: &[u8]) -> usize
    ensures { result ≡ count_by (λ byte. byte == 10) head.now }
{
    head.iter().filter(|byte| **byte == b'\n').count()
}

fn answer_to(head: &[u8], request: &RequestSpans, lines: &[HeaderSpan]) -> Headed
    requires method { IsWithin (length head.now) request.now.method }
    requires target { IsWithin (length head.now) request.now.path }
    requires lines { All (IsHeaderWithin (length head.now)) lines.now }
    ensures answer { headed_as result ≡ answer_to (map (header_bytes head.now) lines.now)
        (span_bytes head.now request.now.method) (span_bytes head.now request.now.path)
        request.now.version }
    ensures http { HasRefusal (headed_as result) }
    ensures text { HasStatusText (headed_as result) }
    ensures length { HasBodyLength (headed_as result) }
{
    let Some(length) = content_length(head, lines) else {
        return Headed::Http(400);
    };
    if request.version == 0 {
        return Headed::Http(505);
    }
    if request.method.of(head) != POST {
        return Headed::Http(405);
    }
    if !has_grpc_web(head, lines) {
        return Headed::Http(415);
    }
    if first_named(head, lines, b"transfer-encoding").is_some() {
        return Headed::Http(411);
    }
    if length > MAX_BODY_LEN {
        return Headed::Status(Code::ResourceExhausted, "request too large");
    }
    match method_of(request.path.of(head)) {
        Some(method) => Headed::Body {
            method,
            length: length as u32,
        },
        None => Headed::Status(Code::Unimplemented, "unknown method"),
    }
}
