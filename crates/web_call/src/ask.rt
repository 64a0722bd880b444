ghost use Rattle.std.specs.Prelude.{◌≡◌, ℕ, List};
ghost use Rattle.web_call.specs.declared.method.Method.{Method};
ghost use Rattle.web_call.specs.Ask.{Asked, IsAsked, asked_of, refusal, HasStatusText};

use crate::method::Method;
use grpc_frame::{Code, FrameFault, one_answer, one_message};
use health_wire::{one_request, read_request};

const COMPRESSED_MESSAGE: &str = "compressed message";

const MALFORMED_REQUEST: &str = "malformed request";

/// What a request asks for, or the status that refuses it.
#[derive(Clone, Copy)]
pub enum Ask<'a> {
    Status(Code, &'static str),
    Check(&'a str),
    Watch(&'a str),
}

/// Reads a request's body: the frame of one message, and in it the name of a service.
pub fn ask_of(method: Method, body: &[u8]) -> Ask<'_>
    ensures asked { IsAsked method body.now (asked_of result) }
    ensures text { HasStatusText (asked_of result) }
{
    let message = match one_message(body) {
        Ok(message) => message,
        Err(fault) => return refusal_of(fault),
    };
    match (read_request(message), method) {
        (Ok(name), Method::Check) => Ask::Check(name),
        (Ok(name), Method::Watch) => Ask::Watch(name),
        (Err(_), _) => Ask::Status(Code::Internal, MALFORMED_REQUEST),
    }
}

fn refusal_of(fault: FrameFault) -> Ask<'static>
    ensures refused { asked_of result ≡ refusal fault }
    ensures text { HasStatusText (asked_of result) }
{
    match fault {
        FrameFault::Compressed => Ask::Status(Code::Unimplemented, COMPRESSED_MESSAGE),
        _ => Ask::Status(Code::Internal, MALFORMED_REQUEST),
    }
}

/// A body asks one thing at most.
pub fn one_ask()
    ensures { (method : Method) (body : List ℕ) (a b : Asked) → IsAsked method body a
        → IsAsked method body b → a ≡ b }
{
    one_answer();
    one_request();
}
