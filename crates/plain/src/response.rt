ghost use Rattle.std.specs.Prelude.{◌≡◌, IfOk};
ghost use Rattle.plain.specs.Response.{body_sent, front, head_text, response};

use crate::verb::Verb;
use std::alloc::{AllocError, Global};

/// What a response is, beside its body.
#[derive(Clone, Copy)]
pub(crate) enum Kind {
    Good,
    Unavailable,
    NotFound,
    /// GET and HEAD alone are allowed.
    ReadOnly,
    /// POST alone is.
    CallOnly,
    Json,
    Metrics,
    Page,
}

/// The response of this kind and with this body, of which a HEAD is sent nothing.
pub(crate) fn response(
    alloc: Global,
    verb: Verb,
    kind: Kind,
    body: &[u8],
) -> Result<Vec<u8>, AllocError>
    ensures { IfOk result (λ text. text.items ≡ response verb (record { kind = kind; body = body.now })) }
{
    let mut text = head_text(alloc, kind, body.len())?;
    text.extend_from_slice(body_sent(verb, body))?;
    Ok(text)
}

fn body_sent(verb: Verb, body: &[u8]) -> &[u8]
    ensures { result.now ≡ body_sent verb body.now }
{
    match verb {
        Verb::Head => b"",
        Verb::Get | Verb::Post | Verb::Other => body,
    }
}

fn head_text(alloc: Global, kind: Kind, len: usize) -> Result<Vec<u8>, AllocError>
    ensures { IfOk result (λ text. text.items ≡ head_text kind len) }
{
    let mut text = front(kind).to_vec(alloc)?;
    text.extend_from_slice(len.to_string(alloc)?.as_bytes())?;
    text.extend_from_slice(b"\r\n\r\n")?;
    Ok(text)
}

/// A head up to the length of its body.
fn front(kind: Kind) -> &'static [u8]
    ensures { result.now ≡ front kind }
{
    match kind {
        Kind::Good => {
            b"HTTP/1.1 200 OK\r\nconnection: close\r\ncontent-type: text/plain; charset=utf-8\r\ncache-control: no-store\r\ncontent-length: "
        }
        Kind::Unavailable => {
            b"HTTP/1.1 503 Service Unavailable\r\nconnection: close\r\ncontent-type: text/plain; charset=utf-8\r\ncache-control: no-store\r\ncontent-length: "
        }
        Kind::NotFound => {
            b"HTTP/1.1 404 Not Found\r\nconnection: close\r\ncontent-type: text/plain; charset=utf-8\r\ncache-control: no-store\r\ncontent-length: "
        }
        Kind::ReadOnly => {
            b"HTTP/1.1 405 Method Not Allowed\r\nconnection: close\r\nallow: GET, HEAD\r\ncontent-type: text/plain; charset=utf-8\r\ncache-control: no-store\r\ncontent-length: "
        }
        Kind::CallOnly => {
            b"HTTP/1.1 405 Method Not Allowed\r\nconnection: close\r\nallow: POST\r\ncontent-type: text/plain; charset=utf-8\r\ncache-control: no-store\r\ncontent-length: "
        }
        Kind::Json => {
            b"HTTP/1.1 200 OK\r\nconnection: close\r\ncontent-type: application/json\r\ncache-control: no-store\r\ncontent-length: "
        }
        Kind::Metrics => {
            b"HTTP/1.1 200 OK\r\nconnection: close\r\ncontent-type: text/plain; version=0.0.4; charset=utf-8\r\ncache-control: no-store\r\ncontent-length: "
        }
        Kind::Page => {
            b"HTTP/1.1 200 OK\r\nconnection: close\r\ncontent-type: text/html; charset=utf-8\r\ncontent-security-policy: default-src 'none'; style-src 'unsafe-inline'; script-src 'unsafe-inline'; connect-src 'self'; base-uri 'none'; form-action 'none'; frame-ancestors 'none'\r\ncache-control: no-store\r\ncontent-length: "
        }
    }
}
