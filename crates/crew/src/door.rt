ghost use Rattle.hall.specs.Seats.{IsOf};

use desk_core::{
    Behind, Call, Catalogue, Console, Effect, Extent, Keep, KeepAll, Recall, Registrar, Ruled,
    Slot, Standing, Transcript, Watch,
};
use hall::{Hall, Seat};
use health_wire::Serving;
use plain::Inquiry;
use probe_core::Probe;
use std::alloc::{AllocError, Global};
use std::sync::Wait;
use web_call::Door;

/// A door over a hall, and a console: it looks, and makes changes, with a seat, which it is lent.
#[derive(Drop)]
pub struct HallDoor<'a, R: Wait, P: Probe, K: Keep = KeepAll> {
    rt: &'a R,
    hall: &'a Hall<P, K>,
    seat: &'a mut Seat<P, K>,
    ghost fits: { IsOf hall.now seat.now },
}

impl<'a, R: Wait, P: Probe, K: Keep> HallDoor<'a, R, P, K> {
    ghost use Rattle.std.specs.Prelude.{◌≡◌, List, OnOk, OnErr};
    ghost use Rattle.desk_core.specs.declared.change.Change.{Change};
    ghost use Rattle.desk_core.specs.Changes.{changes_of};
    ghost use Rattle.desk_core.specs.Legal.{IsLegal};
    ghost use Rattle.desk_core.specs.Transcript.{IsCopy, IsCopyWithin};
    ghost use Rattle.hall.specs.Seats.{IsOf};
    ghost use Rattle.crew.specs.HallDoor.{door_hall, door_seat, StaysAt};

    /// The seat is one of this hall's. A Check and `board` wait for nobody; `open`, `step`, `change` and `extent` wait for the seat's turn.
    pub fn new(rt: &'a R, hall: &'a Hall<P, K>, seat: &'a mut Seat<P, K>) -> HallDoor<'a, R, P, K>
        requires { IsOf hall.now seat.old }
        ensures reference { result.seat.ghost_name ≡ seat.entry.ghost_name }
        ensures seat { door_seat result ≡ seat.old }
        ensures hall { door_hall result ≡ hall.now }
    {
        HallDoor { rt, hall, seat }
    }

    /// How many changes of its seat got a reply. The seat keeps that its history is legal, and here a caller learns it.
    pub(crate) fn made(&self) -> u64
        ensures { IsLegal (door_seat self.now).seen }
    {
        // Every field is named: a new one, from which something could be answered, fails to compile here.
        let HallDoor {
            rt: _,
            hall: _,
            seat,
        } = self;
        seat.made()
    }

    /// Takes over into the copy what the status changes are by now. It waits for the seat's turn.
    pub(crate) fn copy_to(&mut self, copy: &mut Transcript<K>) -> Result<(), AllocError>
        requires { IsCopyWithin copy.old (changes_of (door_seat self.old).seen) }
        ensures stays { StaysAt self.old self.new }
        ensures legal { IsLegal (door_seat self.new).seen }
        ensures copied { OnOk result
            (IsCopy copy.new (changes_of (door_seat self.new).seen)) }
        ensures left { (changes : List Change) → IsCopy copy.old changes
            → OnErr result (IsCopy copy.new changes) }
    {
        self.hall.copy_to(self.rt, self.seat, copy)
    }
}

impl<'a, R: Wait, P: Probe, K: Keep> Door for HallDoor<'a, R, P, K> {
    ghost use Rattle.std.specs.Prelude.{◌≡◌, ℕ, List, IfOk, false};
    ghost use Rattle.desk_core.specs.Legal.{IsLegal};
    ghost use Rattle.plain.specs.Answer.{IsInquiryOf, IsTold};
    ghost use Rattle.plain.specs.Inquiry.{asked_of};
    ghost use Rattle.desk_core.specs.Watch.{IsOlder};
    ghost use Rattle.crew.specs.HallDoor.{door_hall, door_seat, StaysAt, stays_same, stays_then};

    ghost names = { λ door. (door_hall door).names };

    ghost seen = { λ door. (door_seat door).seen };

    ghost follows = { IsOlder };

    ghost kept = { K.kept };

    ghost is_plain = { false };

    ghost stays = { StaysAt };

    ghost stays_self = { stays_same };

    ghost stays_on = { stays_then };

    fn check(&mut self, name: &str) -> Option<Serving> {
        self.hall.check(self.seat, name).status
    }

    fn open(&mut self, name: &str) -> (Watch, Serving) {
        self.hall.open(self.rt, self.seat, name)
    }

    fn step(&mut self, watch: &mut Watch) -> Result<Option<Serving>, Behind> {
        self.hall.step_kept(self.rt, self.seat, watch)
    }

    fn answers_plainly(&self) -> bool {
        false
    }

    /// It is never asked, since it answers no plain requests.
    fn tell(&mut self, _alloc: Global, inquiry: &Inquiry<'_>) -> Result<Vec<u8>, AllocError>
        ensures names { (door_hall self.new).names ≡ (door_hall self.old).names }
        ensures legal { IsLegal (door_seat self.new).seen }
        ensures follows { IsOlder (door_seat self.old).seen (door_seat self.new).seen }
        ensures stays { StaysAt self.old self.new }
        ensures told { (head : List ℕ) → IsInquiryOf head (asked_of inquiry.now) → IfOk result
            (λ text. IsTold (door_hall self.old).names (door_seat self.new).seen head text.items) }
    {
        self.made();
        Err(AllocError)
    }
}

impl<'a, R: Wait, P: Probe, K: Keep> Registrar<P> for HallDoor<'a, R, P, K> {
    ghost use Rattle.std.specs.Prelude.{◌≡◌, ◌-◌, ◌↔◌, Some, IfSome, IfOk, IfErr, IsTrue, length};
    ghost use Rattle.std.specs.Option.{option_map};
    ghost use Rattle.desk_core.specs.Changes.{Shows};
    ghost use Rattle.desk_core.specs.Mutation.{rule_of};
    ghost use Rattle.desk_core.specs.Refusal.{refused_effect};
    ghost use Rattle.desk_core.specs.Order.{IsListed};
    ghost use Rattle.crew.specs.HallDoor.{door_hall, door_seat, CarriesOut};

    ghost names = { λ door. (door_hall door).names };

    ghost seen = { λ door. (door_seat door).seen };

    ghost answers = { CarriesOut };

    fn catalogue(&self) -> &Catalogue {
        self.hall.catalogue()
    }

    fn change(&mut self, call: Option<Call>, probe: Option<P>) -> Effect
        requires listed { IfSome call (IsListed (door_hall self.old).names) }
        requires ruled { IfSome call (λ c. option_map P.rule probe ≡ rule_of c) }
        ensures names { (door_hall self.new).names ≡ (door_hall self.old).names }
        ensures answered { CarriesOut self.old self.new call result.result }
        ensures shows { IfOk result.result (λ reply.
            IsTrue result.shows ↔ Shows (door_seat self.new).seen) }
        ensures refused { IfErr result.result (λ refusal. result ≡ refused_effect refusal) }
        ensures placed { IfOk result.result (λ reply.
            result.at ≡ Some (length (door_seat self.new).seen - 1)) }
    {
        match self.hall.change(self.rt, self.seat, call, probe) {
            Ok(made) => made.effect(),
            Err((refusal, _)) => Effect::of_refusal(refusal),
        }
    }
}

impl<'a, R: Wait, P: Probe, K: Keep> Console<P> for HallDoor<'a, R, P, K> {
    ghost use Rattle.crew.specs.HallDoor.{StaysAt};

    ghost kept = { K.kept };

    ghost looks = { StaysAt };

    fn check(&mut self, name: &str) -> Option<Serving> {
        let answer = self.hall.check(self.seat, name);
        answer.status
    }

    fn board(&mut self) -> u64 {
        self.hall.board(self.seat)
    }

    fn rule(&mut self, slot: Slot) -> Ruled {
        self.hall.rule(self.rt, self.seat, slot)
    }

    fn standing(&mut self, slot: Slot) -> Standing {
        self.hall.standing(self.rt, self.seat, slot)
    }

    fn recall(&mut self, place: u32) -> Recall {
        self.hall.recall(self.rt, self.seat, place)
    }

    fn extent(&mut self) -> Extent {
        self.hall.extent(self.rt, self.seat)
    }
}
