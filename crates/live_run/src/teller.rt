use crate::meter::Meter;
use desk_core::{Behind, Watch};
use health_wire::Serving;
use plain::{Inquiry, answer};
use std::alloc::{AllocError, Global};
use web_call::{BoardDoor, Door};

/// A door that answers plain requests too: by the board of the door that it is lent, and what a meter reads.
#[derive(Drop)]
pub struct Teller<'a, D: BoardDoor, M: Meter> {
    door: &'a mut D,
    meter: &'a M,
}

impl<'a, D: BoardDoor, M: Meter> Teller<'a, D, M> {
    ghost use Rattle.std.specs.Prelude.{◌≡◌};
    ghost use Rattle.live_run.specs.Teller.{door_of};

    pub fn new(door: &'a mut D, meter: &'a M) -> Teller<'a, D, M>
        ensures reference { result.door.ghost_name ≡ door.entry.ghost_name }
        ensures door { door_of result ≡ door.old }
    {
        Teller { door, meter }
    }
}

impl<'a, D: BoardDoor, M: Meter> Door for Teller<'a, D, M> {
    ghost use Rattle.std.specs.Prelude.{◌≡◌, true, refl};
    ghost use Rattle.std.proofs.Common.{◌∙◌};
    ghost use Rattle.live_run.specs.Teller.{door_of};

    ghost names = { λ teller. D.names (door_of teller) };

    ghost seen = { λ teller. D.seen (door_of teller) };

    ghost follows = { D.follows };

    ghost kept = { D.kept };

    ghost is_plain = { true };

    ghost stays = { λ a b. (b.door.ghost_name ≡ a.door.ghost_name) × D.stays (door_of a) (door_of b) };

    ghost stays_self = { λ a. (refl, D.stays_self (door_of a)) };

    ghost stays_on = { λ a b c p q. (q.0 ∙ p.0, D.stays_on (door_of a) (door_of b) (door_of c) p.1 q.1) };

    fn check(&mut self, name: &str) -> Option<Serving> {
        self.door.check(name)
    }

    fn open(&mut self, name: &str) -> (Watch, Serving) {
        self.door.open(name)
    }

    fn step(&mut self, watch: &mut Watch) -> Result<Option<Serving>, Behind> {
        self.door.step(watch)
    }

    fn answers_plainly(&self) -> bool {
        true
    }

    fn tell(&mut self, alloc: Global, inquiry: &Inquiry<'_>) -> Result<Vec<u8>, AllocError> {
        let board = self.door.board();
        let figures = self.meter.read();
        answer(alloc, inquiry, self.door.catalogue(), board, &figures)
    }

    fn renew(&mut self) {
        self.door.renew();
    }
}
