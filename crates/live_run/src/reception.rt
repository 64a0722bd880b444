use crate::meter::Meter;
use crate::teller::Teller;
use live_server::{Caller, Entrance, Handler, Visit};
use reactor::{Connection, Left};
use std::alloc::Global;
use std::time::Instant;
use web_call::{BoardDoor, Call, Door};

/// What takes in the clients of both places, and has them answered at one door, which it is lent: at the place of plain requests these too.
#[derive(Drop)]
pub struct Reception<'a, D: BoardDoor, M: Meter> {
    door: &'a mut D,
    meter: &'a M,
}

impl<'a, D: BoardDoor, M: Meter> Reception<'a, D, M> {
    ghost use Rattle.std.specs.Prelude.{◌≡◌};
    ghost use Rattle.live_run.specs.Reception.{door_of};

    pub fn new(door: &'a mut D, meter: &'a M) -> Reception<'a, D, M>
        ensures reference { result.door.ghost_name ≡ door.entry.ghost_name }
        ensures door { door_of result ≡ door.old }
    {
        Reception { door, meter }
    }
}

impl<D: BoardDoor, M: Meter> Handler<Caller, Call> for Reception<'_, D, M> {
    ghost use Rattle.std.specs.Prelude.{◌≡◌, refl};
    ghost use Rattle.std.proofs.Common.{◌∙◌};
    ghost use Rattle.live_run.specs.Reception.{door_of};

    ghost is_ready = { λ _. Unit {0} };

    ghost stays = { λ a b. (b.door.ghost_name ≡ a.door.ghost_name) × (D.names (door_of b) ≡ D.names (door_of a)) × D.stays (door_of a) (door_of b) };

    fn open(
        &mut self,
        alloc: Global,
        stream: Caller,
        now: Instant,
        _talking: usize,
    ) -> Option<Connection<Caller, Call>> {
        let call = Call::new(alloc).ok()?;
        Some(Connection::new(stream, call, now))
    }

    fn turn(
        &mut self,
        alloc: Global,
        visit: Visit,
        connection: &mut Connection<Caller, Call>,
        buffer: &mut [u8],
    ) -> Left {
        match connection.stream().entrance() {
            Entrance::Calls => connection.turn(alloc, self.door, buffer, visit.occasion),
            Entrance::Plain => {
                let mut teller = Teller::new(self.door, self.meter);
                connection.turn(alloc, &mut teller, buffer, visit.occasion)
            }
        }
    }

    fn renew(&mut self) {
        self.door.renew();
    }

    ghost stays_self = { λ a. (refl, refl, D.stays_self (door_of a)) };

    ghost stays_on = { λ a b c p q. (q.0 ∙ p.0, q.1 ∙ p.1, D.stays_on (door_of a) (door_of b) (door_of c) p.2 q.2) };
}
