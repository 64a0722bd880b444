ghost use Rattle.std.specs.Prelude.{◌≡◌, IfOk};
ghost use Rattle.plain.specs.Response.{response};
ghost use Rattle.plain.specs.StatusText.{call_only, not_found, read_only, status_reply};

use crate::response::{Kind, response};
use crate::verb::Verb;
use health_wire::Serving;
use std::alloc::{AllocError, Global};

/// The response that tells one status, or that there is none.
pub(crate) fn status_response(
    alloc: Global,
    verb: Verb,
    status: Option<Serving>,
) -> Result<Vec<u8>, AllocError>
    ensures { IfOk result (λ text. text.items ≡ response verb (status_reply status)) }
{
    response(alloc, verb, kind_of(status), word_of(status))
}

fn kind_of(status: Option<Serving>) -> Kind
    ensures { result ≡ (status_reply status).kind }
{
    match status {
        Some(Serving::Serving) => Kind::Good,
        Some(Serving::NotServing | Serving::Unknown) => Kind::Unavailable,
        Some(Serving::ServiceUnknown) | None => Kind::NotFound,
    }
}

fn word_of(status: Option<Serving>) -> &'static [u8]
    ensures { result.now ≡ (status_reply status).body }
{
    match status {
        Some(Serving::Serving) => b"serving\n",
        Some(Serving::NotServing) => b"not_serving\n",
        Some(Serving::Unknown) => b"unknown\n",
        Some(Serving::ServiceUnknown) | None => b"not found\n",
    }
}

pub(crate) fn not_found(alloc: Global, verb: Verb) -> Result<Vec<u8>, AllocError>
    ensures { IfOk result (λ text. text.items ≡ response verb not_found) }
{
    response(alloc, verb, Kind::NotFound, b"not found\n")
}

/// Where only GET and HEAD are allowed.
pub(crate) fn read_only(alloc: Global, verb: Verb) -> Result<Vec<u8>, AllocError>
    ensures { IfOk result (λ text. text.items ≡ response verb read_only) }
{
    response(alloc, verb, Kind::ReadOnly, b"method not allowed\n")
}

/// Where only POST is.
pub(crate) fn call_only(alloc: Global, verb: Verb) -> Result<Vec<u8>, AllocError>
    ensures { IfOk result (λ text. text.items ≡ response verb call_only) }
{
    response(alloc, verb, Kind::CallOnly, b"method not allowed\n")
}
