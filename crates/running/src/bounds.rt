ghost use Rattle.std.specs.Prelude.{min, max, ◌≡◌, ◌≤◌, ◌<◌, ◌↔◌, ◌⊎◌, IsSome, IsNone, IfSome, None};
ghost use Rattle.running.specs.Bounds.{watches_of};

use live_server::ServerLimits;

/// The most event loops of a server.
pub const MAX_LOOPS: u16 = 64;

/// How much a server holds at once: so many connections, and so many open Watches among them.
#[derive(Clone, Copy, PartialEq, Eq)]
pub struct Bounds {
    connections: u32,
    watches: u32,
    ghost some: { 1 ≤ connections },
    ghost among: { watches ≤ connections },
}

/// The bounds that a command line asks for: nine tenths of the connections may be Watches where it does not say how many. None where
/// there are no connections, or more Watches than connections.
pub fn bounds_of(connections: u32, watches: Option<u32>) -> Option<Bounds>
    ensures value { IfSome result (λ bounds. (bounds.connections ≡ connections) ×
        (bounds.watches ≡ watches_of connections watches)) }
    ensures none { IsNone result ↔ ((connections ≡ 0) ⊎ (connections < watches_of connections
        watches)) }
{
    Bounds::new(connections, watches_of(connections, watches))
}

fn watches_of(connections: u32, watches: Option<u32>) -> u32
    ensures { result ≡ watches_of connections watches }
{
    watches.unwrap_or(connections - connections.div_ceil(10))
}

impl Bounds {
    /// None where there are no connections, or more Watches than connections.
    pub fn new(connections: u32, watches: u32) -> Option<Bounds>
        ensures lawful { IsSome result ↔ ((1 ≤ connections) × (watches ≤ connections)) }
        ensures value { IfSome result (λ bounds. (bounds.connections ≡ connections) ×
            (bounds.watches ≡ watches)) }
    {
        if connections == 0 || watches > connections {
            return None;
        }
        Some(Bounds {
            connections,
            watches,
        })
    }

    /// How many connections are open at once, at most.
    pub fn connections(self) -> u32
        ensures { result ≡ self.connections }
    {
        self.connections
    }

    /// How many Watches are open at once, at most.
    pub fn watches(self) -> u32
        ensures { result ≡ self.watches }
    {
        self.watches
    }

    /// The same bounds, as far as so many connections can be held: where they are fewer, Watches are nine tenths of them at most. None
    /// where no connection can be.
    pub fn within(self, connections: u32) -> Option<Bounds>
        ensures none { IsNone result ↔ (connections ≡ 0) }
        ensures connections { IfSome result (λ bounds. bounds.connections ≡ min self.connections
            connections) }
        ensures same { self.connections ≤ connections → IfSome result
            (λ bounds. bounds.watches ≡ self.watches) }
        ensures fewer { connections < self.connections
            → IfSome result (λ bounds. bounds.watches ≡ min self.watches (watches_of connections None)) }
    {
        if connections >= self.connections {
            return Some(self);
        }
        let watches = self.watches.min(watches_of(connections, None));
        Bounds::new(connections, watches)
    }

    /// How many loops serve with so many threads: no more than there are connections, since more have nothing to do.
    pub fn loops(self, threads: u16) -> u16
        ensures value { result ≡ min (max 1 (min threads 64)) self.connections }
        ensures range { (1 ≤ result) × (result ≤ 64) }
        ensures served { result ≤ self.connections }
    {
        let threads = threads.clamp(1, MAX_LOOPS);
        self.connections.min(u32::from(threads)) as u16
    }

    /// How much the loops hold together.
    pub fn limits(self) -> ServerLimits
        ensures connections { result.connections ≡ self.connections }
        ensures watches { result.watches ≡ self.watches }
    {
        ServerLimits {
            connections: self.connections as usize,
            watches: self.watches as usize,
        }
    }
}
