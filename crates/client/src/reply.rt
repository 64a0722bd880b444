ghost use Rattle.std.specs.Prelude.{◌≤◌, length};
ghost use Rattle.client.specs.ResponseBody.{wanted_by};

mod giving;
mod hearing;

use crate::response_body::ResponseBody;
use crate::told::Told;
use grpc_frame::Splitter;
use std::alloc::Global;
use web_call::Method;

/// Which statuses are asked for: a Check doesn't look at `most`.
#[derive(Clone, Copy)]
pub(crate) struct Wanted {
    pub(crate) alloc: Global,
    pub(crate) method: Method,
    pub(crate) most: u32,
    pub(crate) ghost some: { 1 ≤ most },
}

/// What was heard so far: the statuses, and the content behind their frames.
#[derive(Drop)]
pub(crate) struct Heard {
    pub(crate) splitter: Splitter,
    pub(crate) statuses: Vec<u64>,
}

/// A body of which more has to come.
#[derive(Drop)]
pub(crate) struct Reading {
    pub(crate) body: ResponseBody,
    pub(crate) heard: Heard,
    pub(crate) ghost comes: { 1 ≤ wanted_by body.next },
}

/// How far a response has come.
#[derive(Drop)]
pub(crate) enum ReplyStage {
    Head,
    Body(Reading),
    Told(Told),
}

/// A response as it comes: it is given bytes, and neither reads nor waits.
#[derive(Drop)]
pub(crate) struct Reply {
    call: Wanted,
    head: Vec<u8>,
    stage: ReplyStage,
}
