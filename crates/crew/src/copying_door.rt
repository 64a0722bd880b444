ghost use Rattle.std.specs.Prelude.{◌≡◌, true};
ghost use Rattle.desk_core.specs.Changes.{changes_of};
ghost use Rattle.desk_core.specs.Transcript.{IsCopy, IsCopyWithin};
ghost use Rattle.crew.specs.HallDoor.{door_seat};

use crate::door::HallDoor;
use desk_core::{Behind, Catalogue, Console, Keep, KeepAll, Registrar, Transcript, Watch};
use health_wire::Serving;
use plain::Inquiry;
use probe_core::Probe;
use std::alloc::{AllocError, Global};
use std::sync::Wait;
use web_call::{BoardDoor, Door};

/// A door over a hall that tells Watches from a copy of the status changes.
///
/// The first step behind `renew`, or behind a Check or an opening, waits for the seat's turn and takes over what has changed. Those
/// behind it look at the copy alone. Where memory for it runs out each step waits for the turn twice, and looks at the hall's own
/// changes.
#[derive(Drop)]
pub struct CopyingDoor<'a, R: Wait, P: Probe, K: Keep = KeepAll> {
    door: HallDoor<'a, R, P, K>,
    copy: &'a mut Transcript<K>,
    is_current: bool,
    ghost copies: { IsCopyWithin copy.now (changes_of (door_seat door).seen) },
    ghost current: { is_current ≡ true → IsCopy copy.now (changes_of (door_seat door).seen) },
}

impl<'a, R: Wait, P: Probe, K: Keep> CopyingDoor<'a, R, P, K> {
    ghost use Rattle.std.specs.Prelude.{◌≡◌};
    ghost use Rattle.desk_core.specs.Changes.{changes_of};
    ghost use Rattle.desk_core.specs.Transcript.{IsCopyWithin};
    ghost use Rattle.crew.specs.HallDoor.{StaysAt, door_seat};
    ghost use Rattle.crew.specs.CopyingDoor.{door_of};

    /// The copy is of what the door has seen, or of a front of it: a new one is.
    pub fn new(door: HallDoor<'a, R, P, K>, copy: &'a mut Transcript<K>) -> CopyingDoor<'a, R, P, K>
        requires { IsCopyWithin copy.old (changes_of (door_seat door).seen) }
        ensures reference { result.door.seat.ghost_name ≡ door.entry.seat.ghost_name }
        ensures door { door_of result ≡ door.entry }
    {
        CopyingDoor {
            door,
            copy,
            is_current: false,
        }
    }

    /// Takes over what has changed by now. It is false where memory runs out.
    fn take_over(&mut self) -> bool
        ensures stays { StaysAt (door_of self.old) (door_of self.new) }
        ensures current { self.new.is_current ≡ result }
    {
        self.is_current = self.door.copy_to(self.copy).is_ok();
        self.is_current
    }
}

impl<'a, R: Wait, P: Probe, K: Keep> Door for CopyingDoor<'a, R, P, K> {
    ghost use Rattle.std.specs.Prelude.{◌≡◌, ℕ, List, IfOk, false};
    ghost use Rattle.desk_core.specs.Legal.{IsLegal};
    ghost use Rattle.plain.specs.Answer.{IsInquiryOf, IsTold};
    ghost use Rattle.plain.specs.Inquiry.{asked_of};
    ghost use Rattle.desk_core.specs.Watch.{IsOlder};
    ghost use Rattle.crew.specs.HallDoor.{door_hall, door_seat, StaysAt, stays_same, stays_then};
    ghost use Rattle.crew.specs.CopyingDoor.{door_of};

    ghost names = { λ door. (door_hall (door_of door)).names };

    ghost seen = { λ door. (door_seat (door_of door)).seen };

    ghost follows = { IsOlder };

    ghost kept = { K.kept };

    ghost is_plain = { false };

    ghost stays = { λ a b. StaysAt (door_of a) (door_of b) };

    ghost stays_self = { λ a. stays_same (door_of a) };

    ghost stays_on = { λ a b c. stays_then (door_of a) (door_of b) (door_of c) };

    fn check(&mut self, name: &str) -> Option<Serving> {
        self.is_current = false;
        Door::check(&mut self.door, name)
    }

    fn open(&mut self, name: &str) -> (Watch, Serving) {
        self.is_current = false;
        self.door.open(name)
    }

    fn step(&mut self, watch: &mut Watch) -> Result<Option<Serving>, Behind> {
        if !self.is_current && !self.take_over() {
            return self.door.step(watch);
        }
        self.door.made();
        self.copy.step(watch)
    }

    fn answers_plainly(&self) -> bool {
        false
    }

    /// It is never asked, since it answers no plain requests.
    fn tell(&mut self, _alloc: Global, inquiry: &Inquiry<'_>) -> Result<Vec<u8>, AllocError>
        ensures names { (door_hall (door_of self.new)).names
            ≡ (door_hall (door_of self.old)).names }
        ensures legal { IsLegal (door_seat (door_of self.new)).seen }
        ensures follows { IsOlder (door_seat (door_of self.old)).seen
            (door_seat (door_of self.new)).seen }
        ensures stays { StaysAt (door_of self.old) (door_of self.new) }
        ensures told { (head : List ℕ) → IsInquiryOf head (asked_of inquiry.now) → IfOk result
            (λ text. IsTold (door_hall (door_of self.old)).names
            (door_seat (door_of self.new)).seen head text.items) }
    {
        self.door.made();
        Err(AllocError)
    }

    fn renew(&mut self) {
        self.is_current = false;
    }
}

impl<'a, R: Wait, P: Probe, K: Keep> BoardDoor for CopyingDoor<'a, R, P, K> {
    fn catalogue(&self) -> &Catalogue {
        self.door.catalogue()
    }

    fn board(&mut self) -> u64 {
        self.is_current = false;
        let board = Console::board(&mut self.door);
        self.door.made();
        board
    }
}
