ghost use Rattle.std.specs.Prelude.{◌≡◌, ◌<◌, ◌++◌, codes, length, IfOk, IfSome, None};
ghost use Rattle.std.specs.List.{position};
ghost use Rattle.observing.specs.HttpAnswer.{HttpTells, LineTells, http_request_text, is_line_feed, request_front, verdict_on};

use crate::answer::Answer;
use crate::verdict::{Verdict, Why};
use httparse::Status;
use httparse::spans::{EMPTY_HEADER_SPAN, parse_response};
use std::alloc::{AllocError, Global};

/// How many bytes of an answer a look reads before it gives up.
pub const MAX_ANSWER_LEN: usize = 8192;

/// Of a line, and of a head without fields.
const HEAD_END: &[u8] = b"\n\r\n";

/// A GET for this path of the server at this host and port.
pub fn http_request(alloc: Global, authority: &str, path: &str) -> Result<Vec<u8>, AllocError>
    ensures { IfOk result (λ text. text.items ≡ http_request_text authority.now path.now) }
{
    let mut text = request_front(alloc, path)?;
    text.extend_from_slice(authority.as_bytes())?;
    text.extend_from_slice(b"\r\nuser-agent: healthd\r\nconnection: close\r\n\r\n")?;
    Ok(text)
}

/// Up to the host.
fn request_front(alloc: Global, path: &str) -> Result<Vec<u8>, AllocError>
    ensures { IfOk result (λ text. text.items ≡ request_front path.now) }
{
    let mut text = Vec::from_slice(alloc, b"GET ")?;
    text.extend_from_slice(path.as_bytes())?;
    text.extend_from_slice(b" HTTP/1.1\r\nhost: ")?;
    Ok(text)
}

/// What the bytes at the front of a response of HTTP tell: its status line does. None where memory runs out.
pub fn http_answer(alloc: Global, bytes: &[u8]) -> Option<Answer>
    ensures { IfSome result (HttpTells bytes.now) }
{
    match line_feed_in(bytes) {
        Some(end) => {
            let verdict = verdict_by(alloc, &bytes[..end])?;
            Some(Answer::Told(verdict))
        }
        None => Some(without_line(bytes)),
    }
}

fn line_feed_in(bytes: &[u8]) -> Option<usize>
    ensures place { result ≡ position is_line_feed bytes.now }
    ensures within { IfSome result (λ place. place < length bytes.now) }
{
    bytes.iter().position(|byte| *byte == b'\n')
}

fn without_line(bytes: &[u8]) -> Answer
    requires { position is_line_feed bytes.now ≡ None }
    ensures { HttpTells bytes.now result }
{
    if bytes.len() < MAX_ANSWER_LEN {
        Answer::Open
    } else {
        Answer::Told(Verdict::Fail(Why::TooLong))
    }
}

/// What a line tells, without its line feed.
fn verdict_by(alloc: Global, line: &[u8]) -> Option<Verdict>
    ensures { IfSome result (LineTells line.now) }
{
    let head = with_end(alloc, line).ok()?;
    Some(verdict_of(line, &head))
}

/// The line with its line feed, and an empty line.
fn with_end(alloc: Global, line: &[u8]) -> Result<Vec<u8>, AllocError>
    ensures { IfOk result (λ head. head.items ≡ line.now ++ codes "\n\r\n") }
{
    let mut head = Vec::from_slice(alloc, line)?;
    head.extend_from_slice(HEAD_END)?;
    Ok(head)
}

/// What the head of a response with this line and no field tells.
fn verdict_of(line: &[u8], head: &[u8]) -> Verdict
    requires { head.now ≡ line.now ++ codes "\n\r\n" }
    ensures { LineTells line.now result }
{
    let mut none = [EMPTY_HEADER_SPAN; 0];
    match parse_response(head, &mut none) {
        Ok(Status::Complete(response)) => {
            if response.len == head.len() {
                verdict_on(response.code)
            } else {
                Verdict::Fail(Why::Malformed)
            }
        }
        Ok(Status::Partial) => Verdict::Fail(Why::Malformed),
        Err(_) => Verdict::Fail(Why::Malformed),
    }
}

/// A status code from 200 to 399 is a pass.
fn verdict_on(code: u16) -> Verdict
    ensures { result ≡ verdict_on code }
{
    if code >= 200 && code <= 399 {
        Verdict::Pass
    } else {
        Verdict::Fail(Why::Status(code))
    }
}
