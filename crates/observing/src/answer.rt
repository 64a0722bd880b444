ghost use Rattle.observing.specs.Answer.{Tells};

use crate::health::health_answer;
use crate::http::http_answer;
use crate::kind::Kind;
use crate::verdict::{Verdict, Why};
use std::alloc::Global;

/// What the bytes that came tell.
#[derive(Clone, Copy, PartialEq, Eq)]
pub enum Answer {
    /// Nothing yet: more have to come.
    Open,
    Told(Verdict),
}

/// What these bytes tell, which came over a connection to a target of this kind.
pub fn answer_of(alloc: Global, kind: Kind, bytes: &[u8]) -> Answer
    ensures { Tells kind bytes.now result }
{
    let answer = match kind {
        Kind::Tcp => Some(Answer::Told(Verdict::Pass)),
        Kind::Http => http_answer(alloc, bytes),
        Kind::GrpcWeb => health_answer(alloc, bytes),
    };
    match answer {
        Some(answer) => answer,
        None => Answer::Told(Verdict::Fail(Why::OutOfMemory)),
    }
}
