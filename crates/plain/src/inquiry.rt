ghost use Rattle.std.specs.Prelude.{◌≡◌, IfSome, IsNone, option_map};
ghost use Rattle.plain.specs.Answer.{IsInquiryOf, IsLeft};
ghost use Rattle.plain.specs.Inquiry.{asked_by, asked_of};

use crate::target::{Target, target_of};
use crate::verb::{Verb, verb_of};
use httparse::Status;
use httparse::spans::{EMPTY_HEADER_SPAN, parse_request};

/// The most header lines of a head.
const MAX_LINES: usize = 32;

/// What a request asks for that is no call.
#[derive(Clone, Copy)]
pub struct Inquiry<'a> {
    pub(crate) verb: Verb,
    pub(crate) target: Target<'a>,
}

/// What the head of a request asks for; none where it is left to calls: bytes that are no head of at most 32 header lines, and a POST to the
/// path of a method of the health service.
pub fn inquiry_of(head: &[u8]) -> Option<Inquiry<'_>>
    ensures left { IsNone result → IsLeft head.now }
    ensures asked { IfSome result (λ inquiry. IsInquiryOf head.now (asked_of inquiry)) }
{
    let mut lines = [EMPTY_HEADER_SPAN; MAX_LINES];
    let Ok(Status::Complete(request)) = parse_request(head, &mut lines) else {
        return None;
    };
    if request.len != head.len() {
        return None;
    }
    inquiry_by(request.method.of(head), request.path.of(head))
}

/// What is asked by this method of this target; none where it is a call.
fn inquiry_by<'a>(method: &[u8], target: &'a [u8]) -> Option<Inquiry<'a>>
    ensures { option_map asked_of result ≡ asked_by method.now target.now }
{
    let verb = verb_of(method);
    let target = target_of(target);
    match (verb, target) {
        (Verb::Post, Target::Call) => None,
        _ => Some(Inquiry { verb, target }),
    }
}
