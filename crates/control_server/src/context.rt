use desk_core::Keep;
use hall::Hall;
use live_server::News;
use probe_core::Probe;

/// What all sessions of a server are held over.
#[derive(Drop)]
pub struct Context<'a, R, P: Probe, K: Keep, M> {
    pub rt: &'a R,
    pub hall: &'a Hall<P, K>,
    /// Makes the probes of the services that sessions register.
    pub maker: &'a M,
    pub news: &'a News,
}
