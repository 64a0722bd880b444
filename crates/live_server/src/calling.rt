//! The door that calls are answered at, as the handler of their connections.

use crate::caller::Caller;
use crate::handler::{Handler, Visit};
use reactor::{Connection, Left};
use std::alloc::Global;
use std::time::Instant;
use web_call::{Call, Door};

impl<D: Door> Handler<Caller, Call> for D {
    ghost use Rattle.std.specs.Prelude.{◌≡◌, refl};
    ghost use Rattle.std.proofs.Common.{◌∙◌};

    ghost is_ready = { λ _. Unit {0} };

    ghost stays = { λ a b. (D.names b ≡ D.names a) × D.stays a b };

    fn open(
        &mut self,
        alloc: Global,
        stream: Caller,
        now: Instant,
        _talking: usize,
    ) -> Option<Connection<Caller, Call>> {
        let call = Call::new(alloc).ok()?;
        Some(Connection::new(stream, call, now))
    }

    fn turn(
        &mut self,
        alloc: Global,
        visit: Visit,
        connection: &mut Connection<Caller, Call>,
        buffer: &mut [u8],
    ) -> Left {
        connection.turn(alloc, self, buffer, visit.occasion)
    }

    fn renew(&mut self) {
        Door::renew(self);
    }

    ghost stays_self = { λ a. (refl, D.stays_self a) };

    ghost stays_on = { λ a b c p q. (q.0 ∙ p.0, D.stays_on a b c p.1 q.1) };
}
