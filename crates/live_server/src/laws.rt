ghost use Rattle.std.specs.Prelude.{ℕ, IfSome};
ghost use Rattle.reactor.specs.Table.{place_at};
ghost use Rattle.reactor.specs.Calling.{IsCallOf};
ghost use Rattle.reactor.specs.Connection.{state_of};
ghost use Rattle.live_server.specs.Loop.{held_by};

use crate::event_loop::{EventLoop, EventServer};
use reactor::Machine;

/// At any moment, what a key of a loop holds is a connection whose machine is what a conversation comes to that has moved all that this
/// one has.
pub fn connections_stand<A, S, M: Machine>(server: &EventLoop<A, S, M>)
    ensures { (key : ℕ) → IfSome (place_at (held_by server.now) key)
        (λ place. ∥ M.stands (state_of place.connection).past (state_of place.connection).machine ∥₁) }
{
    let _ = server;
}

/// Of calls: at any moment, what a key holds is a connection of one call, which is what all comes to that it has moved since it began.
pub fn calls_stand(server: &EventServer)
    ensures { (key : ℕ) → IfSome (place_at (held_by server.now) key) (λ place.
        ∥ IsCallOf (state_of place.connection).past (state_of place.connection).machine ∥₁) }
{
    connections_stand(server);
}
