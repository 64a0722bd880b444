ghost use Rattle.std.specs.Prelude.{◌≡◌, ℕ, List, IfOk, String};
ghost use Rattle.std.specs.Global.{Global};
ghost use Rattle.health_wire.specs.declared.serving.Serving.{Serving};
ghost use Rattle.commands.specs.Answer.{IsAnswer, listed_status};

use grpc_frame::Code;
use health_wire::Serving;
use std::alloc::{AllocError, Global};
use web_call::{Ask, Method, ask_of, check_body, one_ask, status_body};

/// A request's body is at most this many bytes.
const MAX_BODY_LEN: usize = 8_192;

const REQUEST_TOO_LARGE: &str = "request too large";

/// Answers the body of a Check's request with the body of its response, from a list of names and their statuses.
pub fn answer_body(
    alloc: Global,
    list: &[(String, Serving)],
    body: &[u8],
) -> Result<Vec<u8>, AllocError>
    ensures { IfOk result (λ answer. IsAnswer list.now body.now answer.items) }
{
    if body.len() > MAX_BODY_LEN {
        return status_body(alloc, Code::ResourceExhausted, REQUEST_TOO_LARGE);
    }
    match ask_of(Method::Check, body) {
        Ask::Status(code, text) => status_body(alloc, code, text),
        Ask::Check(name) => check_body(alloc, status_of(list, name)),
        Ask::Watch(_) => unreachable!(),
    }
}

fn status_of(list: &[(String, Serving)], name: &str) -> Option<Serving>
    ensures { result ≡ listed_status list.now name.now }
{
    list.iter()
        .find(|pair| pair.0.as_str() == name)
        .map(|pair| pair.1)
}

/// A list and a body have one answer at most.
pub fn one_response()
    ensures { (list : List (String Global × Serving)) (body a b : List ℕ) → IsAnswer list body a → IsAnswer list body b → a ≡ b }
{
    one_ask();
}
