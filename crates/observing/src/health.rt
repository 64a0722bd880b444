ghost use Rattle.std.specs.Prelude.{◌≡◌, ◌≤◌, ◌++◌, List, ℕ, [], length, IfSome, Some, Ok, Err};
ghost use Rattle.client.specs.Reply.{IsOpen};
ghost use Rattle.client.specs.Request.{IsRequestText};
ghost use Rattle.observing.specs.HealthAnswer.{HealthTells, by_statuses, by_told};
ghost use Rattle.web_call.specs.declared.method.Method.{Method};

use crate::answer::Answer;
use crate::http::MAX_ANSWER_LEN;
use crate::verdict::{Verdict, Why};
use client::{AskFault, Ended, Told, ask};
use std::alloc::Global;
use web_call::Method;

/// The number of SERVING in health.proto.
const SERVING: u64 = 1;

/// The request of a Check of the service of this name, as a client writes it. None where memory runs out.
pub fn health_request(alloc: Global, service: &str) -> Option<Vec<u8>>
    requires { length service.now ≤ 1048576 }
    ensures { IfSome result (λ text. IsRequestText Method.Check service.now text.items) }
{
    let mut request = Vec::new(alloc);
    let mut nothing: &[u8] = &[];
    match ask(alloc, &mut nothing, &mut request, Method::Check, service, 1) {
        Err(AskFault::Read) => Some(request),
        _ => None,
    }
}

/// What the bytes at the front of a response to a Check tell a client that reads them. None where memory runs out.
pub fn health_answer(alloc: Global, bytes: &[u8]) -> Option<Answer>
    ensures { IfSome result (HealthTells bytes.now) }
{
    let mut unread = bytes;
    let mut request = Vec::new(alloc);
    match ask(alloc, &mut unread, &mut request, Method::Check, "", 1) {
        Ok(told) => Some(Answer::Told(verdict_by(&told))),
        Err(AskFault::BadResponse) => Some(Answer::Told(Verdict::Fail(Why::Malformed))),
        Err(AskFault::Http(status)) => Some(Answer::Told(Verdict::Fail(Why::Status(status)))),
        // A reader over bytes ends where they do.
        Err(AskFault::Read) if unread.is_empty() => Some(more_of(bytes)),
        Err(_) => None,
    }
}

/// Bytes that are the front of a response tell nothing yet, up to the limit.
fn more_of(bytes: &[u8]) -> Answer
    ensures { IsOpen Method.Check 1 bytes.now → HealthTells bytes.now result }
{
    if bytes.len() < MAX_ANSWER_LEN {
        Answer::Open
    } else {
        Answer::Told(Verdict::Fail(Why::TooLong))
    }
}

/// What a Check's statuses and its end come to.
fn verdict_by(told: &Told) -> Verdict
    ensures { result ≡ by_told told.now }
{
    match &told.end {
        Some(ended) => {
            if ended.code == 0 {
                verdict_on(&told.statuses)
            } else {
                Verdict::Fail(Why::Code(ended.code))
            }
        }
        None => Verdict::Fail(Why::NotServing(None)),
    }
}

/// A Check has one status.
fn verdict_on(statuses: &[u64]) -> Verdict
    ensures { result ≡ by_statuses statuses.now }
{
    match statuses {
        [status] => {
            if *status == SERVING {
                Verdict::Pass
            } else {
                Verdict::Fail(Why::NotServing(Some(*status)))
            }
        }
        _ => Verdict::Fail(Why::NotServing(None)),
    }
}
