ghost use Rattle.std.specs.Prelude.{◌≡◌, ◌++◌, IfOk};
ghost use Rattle.grpc_frame.specs.Frame.{frame};
ghost use Rattle.grpc_frame.specs.Trailers.{block, IsStatusText};
ghost use Rattle.web_call.specs.Response.{check_body_text};

use grpc_frame::{Code, put_message, put_trailers};
use health_wire::{Serving, write_response};
use std::alloc::{AllocError, Global};

const UNKNOWN_SERVICE: &str = "unknown service";

/// The body of a Check's response, for a status or for a name that is not registered.
pub fn check_body(alloc: Global, status: Option<Serving>) -> Result<Vec<u8>, AllocError>
    ensures { IfOk result (λ body. body.items ≡ check_body_text status) }
{
    let mut body = Vec::new(alloc);
    match status {
        Some(status) => {
            put_message(&mut body, write_response(status).as_slice())?;
            put_trailers(&mut body, Code::Ok, "")?;
        }
        None => put_trailers(&mut body, Code::NotFound, UNKNOWN_SERVICE)?,
    }
    Ok(body)
}

/// The body of a response that is a status alone. The text is printable ASCII without `%`, of at most 128 bytes.
pub fn status_body(alloc: Global, code: Code, text: &str) -> Result<Vec<u8>, AllocError>
    requires { IsStatusText text.now }
    ensures { IfOk result (λ body. body.items ≡ frame 128 (block code text.now)) }
{
    let mut body = Vec::new(alloc);
    put_trailers(&mut body, code, text)?;
    Ok(body)
}
