ghost use Rattle.std.specs.Prelude.{◌≡◌};
ghost use Rattle.desk_core.specs.Mutation.{entry_of};

use crate::gate::{enter, finish, leave};
use crate::hall::Hall;
use crate::seat::Seat;
use desk_core::{Call, Entry, Finding, Handed, Keep, Made, Refusal, Registered, Reply, Setting};
use probe_core::Probe;
use std::sync::Wait;

/// The changes. Each waits for the seat's turn, but that of a name that is not listed.
impl<P: Probe, K: Keep> Hall<P, K> {
    ghost use Rattle.std.specs.Prelude.{◌≡◌, ◌+◌, ◌↔◌, None, Some, Ok, Err, IfSome, IfOk, IfErr, IsTrue, MatchResult, drop, length};
    ghost use Rattle.std.specs.Option.{option_map};
    ghost use Rattle.desk_core.specs.declared.call.Call.TheVariants as calls;
    ghost use Rattle.desk_core.specs.Catalogue.{slot_of};
    ghost use Rattle.desk_core.specs.Changes.{Shows};
    ghost use Rattle.desk_core.specs.Desk.{probe_at, probe_of};
    ghost use Rattle.desk_core.specs.Mutation.{rule_of};
    ghost use Rattle.desk_core.specs.Order.{call_at, IsListed};
    ghost use Rattle.hall.specs.Seats.{IsOf, IsCarriedOut};

    /// Makes a change, with the probe that it registers, in its opening state, if it registers one. There is no call where its name
    /// is not listed. Gives back the probe that it takes out, or where it is refused the one that was handed in.
    pub fn change<R: Wait>(
        &self,
        rt: &R,
        seat: &mut Seat<P, K>,
        call: Option<Call>,
        probe: Option<P>,
    ) -> Result<Made<P>, (Refusal, Option<P>)>
        requires ours { IsOf self.now seat.old }
        requires listed { IfSome call (IsListed self.now.names) }
        requires ruled { IfSome call (λ c. option_map P.rule probe ≡ rule_of c) }
        ensures answered { MatchResult result
            (λ made. IsCarriedOut seat.old seat.new call (Ok made.reply))
            (λ refused. IsCarriedOut seat.old seat.new call (Err refused.0)) }
        ensures shows { IfOk result (λ made. IsTrue made.shows ↔ Shows seat.new.seen) }
        ensures placed { IfOk result (λ made. length seat.new.seen ≡ made.at + 1) }
        ensures old { IfOk result (λ made. IfSome call (λ c.
            option_map (λ p. (P.rule p, P.memory p)) made.old
            ≡ probe_of (drop 1 seat.new.seen) c)) }
        ensures handed_back { IfErr result (λ refused. refused.1 ≡ probe) }
    {
        let number = seat.number;
        let Some(call) = &call else {
            return Err((Refusal::NotListed, probe));
        };
        let shared = &self.table.shared;
        let mut desk = enter(rt, shared, &mut seat.place);
        match desk.change(number, *call, probe) {
            Ok(made) => {
                let entry = entry(number, call, made.reply);
                finish(shared, &mut seat.place, &mut seat.made, desk, entry);
                Ok(made)
            }
            Err(refused) => {
                leave(shared, &mut seat.place, desk);
                Err(refused)
            }
        }
    }

    /// Puts a probe, in its opening state, under the name.
    pub fn register<R: Wait>(
        &self,
        rt: &R,
        seat: &mut Seat<P, K>,
        name: &str,
        probe: P,
    ) -> Result<Registered<P>, Handed<P>>
        requires { IsOf self.now seat.old }
        ensures answered { let call = call_at self.now.names
            (λ slot. calls.Register slot (P.rule probe)) name.now in
            MatchResult result
            (λ taken. IsCarriedOut seat.old seat.new call (Ok taken.reply))
            (λ handed. IsCarriedOut seat.old seat.new call (Err handed.refusal)) }
        ensures old { IfOk result (λ taken. IfSome (slot_of self.now.names name.now) (λ slot.
            option_map (λ p. (P.rule p, P.memory p)) taken.old
            ≡ probe_at (drop 1 seat.new.seen) slot)) }
        ensures handed_back { IfErr result (λ handed. handed.probe ≡ probe) }
    {
        let rule = probe.rule();
        let call = self
            .catalogue
            .slot(name)
            .map(|slot| Call::Register(slot, rule));
        match self.change(rt, seat, call, Some(probe)) {
            Ok(Made { reply, old, .. }) => Ok(Registered { reply, old }),
            Err((refusal, probe)) => Err(Handed {
                refusal,
                probe: probe.unwrap(),
            }),
        }
    }

    /// Takes the name's probe out, if there is one.
    pub fn retire<R: Wait>(
        &self,
        rt: &R,
        seat: &mut Seat<P, K>,
        name: &str,
    ) -> Result<(Reply, Option<P>), Refusal>
        requires { IsOf self.now seat.old }
        ensures answered { let call = call_at self.now.names
            (λ slot. calls.Retire slot) name.now in
            MatchResult result
            (λ taken. IsCarriedOut seat.old seat.new call (Ok taken.0))
            (λ refusal. IsCarriedOut seat.old seat.new call (Err refusal)) }
        ensures old { IfOk result (λ taken. IfSome (slot_of self.now.names name.now) (λ slot.
            option_map (λ p. (P.rule p, P.memory p)) taken.1
            ≡ probe_at (drop 1 seat.new.seen) slot)) }
    {
        let call = self.catalogue.slot(name).map(|slot| Call::Retire(slot));
        match self.change(rt, seat, call, None) {
            Ok(Made { reply, old, .. }) => Ok((reply, old)),
            Err((refusal, _)) => Err(refusal),
        }
    }

    /// Lets the service hear what a look at it found.
    pub fn observe<R: Wait>(
        &self,
        rt: &R,
        seat: &mut Seat<P, K>,
        name: &str,
        finding: Finding,
    ) -> Result<Reply, Refusal>
        requires { IsOf self.now seat.old }
        ensures answered { IsCarriedOut seat.old seat.new
            (call_at self.now.names (λ slot. calls.Observe slot finding) name.now) result }
    {
        let call = self
            .catalogue
            .slot(name)
            .map(|slot| Call::Observe(slot, finding));
        self.make(rt, seat, call)
    }

    /// Lets the service hear what somebody set it to.
    pub fn set<R: Wait>(
        &self,
        rt: &R,
        seat: &mut Seat<P, K>,
        name: &str,
        setting: Setting,
    ) -> Result<Reply, Refusal>
        requires { IsOf self.now seat.old }
        ensures answered { IsCarriedOut seat.old seat.new
            (call_at self.now.names (λ slot. calls.Set slot setting) name.now) result }
    {
        let call = self
            .catalogue
            .slot(name)
            .map(|slot| Call::Set(slot, setting));
        self.make(rt, seat, call)
    }

    /// Shows every registered service as not serving, until the next resume.
    pub fn shutdown<R: Wait>(&self, rt: &R, seat: &mut Seat<P, K>) -> Result<Reply, Refusal>
        requires { IsOf self.now seat.old }
        ensures answered { IsCarriedOut seat.old seat.new (Some calls.Shutdown) result }
    {
        self.make(rt, seat, Some(Call::Shutdown))
    }

    /// Takes every probe back to its opening state, also where nothing was shut down.
    pub fn resume<R: Wait>(&self, rt: &R, seat: &mut Seat<P, K>) -> Result<Reply, Refusal>
        requires { IsOf self.now seat.old }
        ensures answered { IsCarriedOut seat.old seat.new (Some calls.Resume) result }
    {
        self.make(rt, seat, Some(Call::Resume))
    }

    /// Makes a change that registers nothing.
    fn make<R: Wait>(
        &self,
        rt: &R,
        seat: &mut Seat<P, K>,
        call: Option<Call>,
    ) -> Result<Reply, Refusal>
        requires ours { IsOf self.now seat.old }
        requires listed { IfSome call (IsListed self.now.names) }
        requires ruled { IfSome call (λ c. rule_of c ≡ None) }
        ensures answered { IsCarriedOut seat.old seat.new call result }
    {
        match self.change(rt, seat, call, None) {
            Ok(made) => Ok(made.reply),
            Err((refusal, _)) => Err(refusal),
        }
    }
}

pub(crate) fn entry(seat: u16, call: &Call, reply: Reply) -> Entry
    ensures { result ≡ entry_of seat call.now reply }
{
    Entry {
        seat,
        call: *call,
        reply,
    }
}
