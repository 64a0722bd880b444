use crate::refusal::Refusal;
use crate::reply::Reply;
use probe_core::Probe;

/// A registration that was taken, and the probe that stood in the slot before.
#[derive(Drop)]
pub struct Registered<P: Probe> {
    pub reply: Reply,
    pub old: Option<P>,
}

/// A registration that was refused, and the probe that was handed in, as it was.
#[derive(Drop)]
pub struct Handed<P: Probe> {
    pub refusal: Refusal,
    pub probe: P,
}
