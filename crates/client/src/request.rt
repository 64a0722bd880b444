ghost use Rattle.std.specs.Prelude.{◌≡◌, ◌≤◌, ◌<◌, ◌^◌, ◌++◌, ℕ, List, length, vec_len, IfOk};
ghost use Rattle.grpc_frame.specs.Frame.{frame};
ghost use Rattle.health_wire.specs.Request.{IsRequestBytes};
ghost use Rattle.client.specs.Request.{IsRequestText, request_front, request_head};

use grpc_frame::put_message;
use health_wire::write_request;
use std::alloc::{AllocError, Global};
use web_call::{HEAD_END, Method};

/// The request for the status of the service of this name.
pub(crate) fn request_text(alloc: Global, method: Method, name: &str) -> Result<Vec<u8>, AllocError>
    requires { length name.now ≤ 1048576 }
    ensures { IfOk result (λ text. IsRequestText method name.now text.items) }
{
    let body = request_body(alloc, name)?;
    let mut text = head_of_length(alloc, method, body.len())?;
    text.extend_from_slice(&body)?;
    Ok(text)
}

fn request_body(alloc: Global, name: &str) -> Result<Vec<u8>, AllocError>
    requires { length name.now ≤ 1048576 }
    ensures { IfOk result (λ body. (message : List ℕ) × IsRequestBytes message name.now
        × (body.items ≡ frame 0 message)) }
{
    let message = write_request(alloc, name)?;
    let mut body = Vec::new(alloc);
    put_message(&mut body, &message)?;
    Ok(body)
}

fn head_of_length(alloc: Global, method: Method, len: usize) -> Result<Vec<u8>, AllocError>
    ensures { IfOk result (λ text. text.items ≡ request_head method len) }
{
    let mut text = head_front(method).to_vec(alloc)?;
    text.extend_from_slice(len.to_string(alloc)?.as_bytes())?;
    text.extend_from_slice(HEAD_END)?;
    Ok(text)
}

/// The head up to the length of the body.
#[tactic(auto, unfolding(crate::specs::Request::request_front))]
fn head_front(method: Method) -> &'static [u8]
    ensures { result.now ≡ request_front method }
{
    match method {
        Method::Check => {
            b"POST /grpc.health.v1.Health/Check HTTP/1.1\r\n\
            host: localhost\r\n\
            content-type: application/grpc-web+proto\r\n\
            x-grpc-web: 1\r\n\
            content-length: "
        }
        Method::Watch => {
            b"POST /grpc.health.v1.Health/Watch HTTP/1.1\r\n\
            host: localhost\r\n\
            content-type: application/grpc-web+proto\r\n\
            x-grpc-web: 1\r\n\
            content-length: "
        }
    }
}
