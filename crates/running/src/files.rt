//! The files that a server has open beside its connections.

ghost use Rattle.std.specs.Prelude.{◌≡◌, ◌↔◌, ◌+◌, ◌-◌, ◌*◌, ◌≤◌, ◌<◌, IfSome, IsNone, None, min};
ghost use Rattle.running.specs.Bounds.{watches_of};
ghost use Rattle.open_files.specs.Bound.{most_of};

use crate::bounds::Bounds;
use open_files::{OpenFiles, connections_within};

/// The standard streams, the script, the socket that calls come to, the watchdog's poll and what wakes it, and some to spare.
const OTHERS: u32 = 16;

/// A loop has a poll, and what wakes it, beside its own handle on each socket.
const OF_A_LOOP: u32 = 2;

/// A place for sessions has its socket, a poll, the connections that are held there, one that is told that it is too many, and one to spare.
const OF_A_PLACE: u32 = 36;

/// How many files a server of so many loops, sockets for calls and plain requests, and places for sessions has open beside its
/// connections, at most.
pub fn reserved(loops: u16, sockets: u16, places: u16) -> u32
    requires loops { loops ≤ 64 }
    requires sockets { sockets ≤ 2 }
    requires places { places ≤ 2 }
    ensures { result ≡ 16 + ((2 + sockets) * loops + 36 * places) }
{
    let of_a_loop = OF_A_LOOP + u32::from(sockets);
    OTHERS + (of_a_loop * u32::from(loops) + OF_A_PLACE * u32::from(places))
}

/// The bounds, as far as the files that may be open leave connections beside those that are reserved; none where they leave none.
pub fn bounds_within(bounds: Bounds, limit: OpenFiles, reserved: u32) -> Option<Bounds>
    ensures none { IsNone result ↔ (most_of limit ≤ reserved) }
    ensures connections { IfSome result (λ within.
        within.connections ≡ min bounds.connections (most_of limit - reserved)) }
    ensures same { bounds.connections ≤ most_of limit - reserved
        → IfSome result (λ within. within.watches ≡ bounds.watches) }
    ensures fewer { most_of limit - reserved < bounds.connections → IfSome result (λ within.
        within.watches ≡ min bounds.watches (watches_of (most_of limit - reserved) None)) }
{
    let connections = connections_within(limit.count(), bounds.connections(), reserved)?;
    bounds.within(connections)
}
