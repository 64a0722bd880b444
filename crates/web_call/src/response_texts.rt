ghost use Rattle.std.specs.Prelude.{◌≡◌, ◌++◌, length, IfOk};
ghost use Rattle.grpc_frame.specs.Trailers.{IsStatusText};
ghost use Rattle.web_call.specs.Pieces.{text_of};
ghost use Rattle.web_call.specs.ResponseTexts.{IsRefusal, refusal_response, status_response, check_response, body_head, watch_head_text, message_chunk, watch_end};

use crate::head_limits::HEAD_END;
use crate::response::{check_body, status_body};
use grpc_frame::Code;
use health_wire::Serving;
use std::alloc::{AllocError, Global};

/// The head of a response with a body, up to the body's length.
const BODY_HEAD: &[u8] =
    b"HTTP/1.1 200 OK\r\nconnection: close\r\ncontent-type: application/grpc-web+proto\r\ncontent-length: ";

/// The response to a request that is refused by HTTP: with 400, 405, 411, 415, 431 or 505.
pub fn refuse_text(alloc: Global, http: u16) -> Result<Vec<u8>, AllocError>
    requires { IsRefusal http }
    ensures { IfOk result (λ text. text.items ≡ refusal_response http) }
{
    refusal(http).to_vec(alloc)
}

fn refusal(http: u16) -> &'static [u8]
    requires { IsRefusal http }
    ensures { result.now ≡ refusal_response http }
{
    if http == 400 {
        b"HTTP/1.1 400 Bad Request\r\nconnection: close\r\ncontent-length: 0\r\n\r\n"
    } else if http == 405 {
        b"HTTP/1.1 405 Method Not Allowed\r\nconnection: close\r\nallow: POST\r\ncontent-length: 0\r\n\r\n"
    } else if http == 411 {
        b"HTTP/1.1 411 Length Required\r\nconnection: close\r\ncontent-length: 0\r\n\r\n"
    } else if http == 415 {
        b"HTTP/1.1 415 Unsupported Media Type\r\nconnection: close\r\ncontent-length: 0\r\n\r\n"
    } else if http == 431 {
        b"HTTP/1.1 431 Request Header Fields Too Large\r\nconnection: close\r\ncontent-length: 0\r\n\r\n"
    } else {
        b"HTTP/1.1 505 HTTP Version Not Supported\r\nconnection: close\r\ncontent-length: 0\r\n\r\n"
    }
}

/// The response to a call that ends with a status alone. The text is printable ASCII without `%`, of at most 128 bytes.
pub fn status_text(alloc: Global, code: Code, text: &str) -> Result<Vec<u8>, AllocError>
    requires { IsStatusText text.now }
    ensures { IfOk result (λ response. response.items ≡ status_response code text.now) }
{
    let body = status_body(alloc, code, text)?;
    with_head(alloc, body.as_slice())
}

/// The response to a Check, for a status or for a name that is not registered.
#[tactic(auto, using(crate::proofs::TextLemmas::check_response_of))]
pub fn check_text(alloc: Global, status: Option<Serving>) -> Result<Vec<u8>, AllocError>
    ensures { IfOk result (λ response. response.items ≡ check_response status) }
{
    let body = check_body(alloc, status)?;
    with_head(alloc, body.as_slice())
}

/// The head of the response to a Watch, whose messages follow as chunks.
pub fn watch_head() -> &'static [u8]
    ensures { result.now ≡ watch_head_text }
{
    b"HTTP/1.1 200 OK\r\nconnection: close\r\ncontent-type: application/grpc-web+proto\r\ntransfer-encoding: chunked\r\n\r\n"
}

/// A response with this body.
fn with_head(alloc: Global, body: &[u8]) -> Result<Vec<u8>, AllocError>
    ensures { IfOk result (λ text. text.items ≡ body_head (length body.now) ++ body.now) }
{
    let mut text = head_of_length(alloc, body.len())?;
    text.extend_from_slice(body)?;
    Ok(text)
}

fn head_of_length(alloc: Global, len: usize) -> Result<Vec<u8>, AllocError>
    ensures { IfOk result (λ text. text.items ≡ body_head len) }
{
    let mut text = BODY_HEAD.to_vec(alloc)?;
    text.extend_from_slice(len.to_string(alloc)?.as_bytes())?;
    text.extend_from_slice(HEAD_END)?;
    Ok(text)
}

/// The head of the response to a Watch, and the chunk of its first message.
#[tactic(auto, using(std::proofs::lemmas::Fmt::hex_one_digit))]
pub(crate) fn first_chunk(status: Serving) -> &'static [u8]
    ensures { result.now ≡ watch_head_text ++ text_of (message_chunk status) }
{
    match status {
        Serving::Unknown => {
            b"HTTP/1.1 200 OK\r\nconnection: close\r\ncontent-type: application/grpc-web+proto\r\ntransfer-encoding: chunked\r\n\r\n5\r\n\0\0\0\0\0\r\n"
        }
        Serving::Serving => {
            b"HTTP/1.1 200 OK\r\nconnection: close\r\ncontent-type: application/grpc-web+proto\r\ntransfer-encoding: chunked\r\n\r\n7\r\n\0\0\0\0\x02\x08\x01\r\n"
        }
        Serving::NotServing => {
            b"HTTP/1.1 200 OK\r\nconnection: close\r\ncontent-type: application/grpc-web+proto\r\ntransfer-encoding: chunked\r\n\r\n7\r\n\0\0\0\0\x02\x08\x02\r\n"
        }
        Serving::ServiceUnknown => {
            b"HTTP/1.1 200 OK\r\nconnection: close\r\ncontent-type: application/grpc-web+proto\r\ntransfer-encoding: chunked\r\n\r\n7\r\n\0\0\0\0\x02\x08\x03\r\n"
        }
    }
}

/// The chunk of a status's message, which takes no memory.
#[tactic(auto, using(std::proofs::lemmas::Fmt::hex_one_digit))]
pub(crate) fn message_chunk(status: Serving) -> &'static [u8]
    ensures { result.now ≡ text_of (message_chunk status) }
{
    match status {
        Serving::Unknown => b"5\r\n\0\0\0\0\0\r\n",
        Serving::Serving => b"7\r\n\0\0\0\0\x02\x08\x01\r\n",
        Serving::NotServing => b"7\r\n\0\0\0\0\x02\x08\x02\r\n",
        Serving::ServiceUnknown => b"7\r\n\0\0\0\0\x02\x08\x03\r\n",
    }
}

/// The chunk of a Watch's trailers and the last chunk, which is empty.
#[tactic(auto, using(std::proofs::lemmas::Fmt::hex_two_digits, std::proofs::lemmas::Fmt::decimal_digit, std::proofs::lemmas::Fmt::decimal_step))]
pub(crate) fn end_chunk() -> &'static [u8]
    ensures { result.now ≡ text_of watch_end }
{
    b"2f\r\n\x80\0\0\0\x2agrpc-status:14\r\ngrpc-message:watch ended\r\n\r\n0\r\n\r\n"
}
