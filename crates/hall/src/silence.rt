//! What is done of a service that is not heard from.

use crate::changes::entry;
use crate::gate::{enter, finish, leave};
use crate::hall::Hall;
use crate::seat::Seat;
use desk_core::{Call, Effect, Entry, Finding, Keep, Ruled, Slot, board_entries};
use probe_core::Probe;
use std::sync::Wait;

/// Each of these waits for the seat's turn.
impl<P: Probe, K: Keep> Hall<P, K> {
    ghost use Rattle.std.specs.Prelude.{◌≡◌, ◌↔◌, ◌++◌, ◌-◌, ◌<◌, Some, true, false, take, drop, length, IfSome, IfNone, IfOk, IfErr, IsTrue, IsFalse};
    ghost use Rattle.std.specs.Vec.{vec_len, vec_capacity};
    ghost use Rattle.desk_core.specs.declared.call.Call.TheVariants as calls;
    ghost use Rattle.desk_core.specs.declared.call.Finding.TheVariants.{Fail};
    ghost use Rattle.desk_core.specs.Changes.{Shows};
    ghost use Rattle.desk_core.specs.Past.{past};
    ghost use Rattle.desk_core.specs.Present.{rule_at};
    ghost use Rattle.desk_core.specs.Refusal.{refused_effect};
    ghost use Rattle.desk_core.specs.Silence.{is_to_fail};
    ghost use Rattle.hall.specs.Seats.{GoesOn, IsCarriedOut, IsOf, own_calls};
    ghost use Rattle.hall.specs.Silence.{seen_before};
    ghost use Rattle.tail.specs.Tail.{forgotten};

    /// The rule that the slot is registered by, and how many entries there are where it is so.
    pub fn rule<R: Wait>(&self, rt: &R, seat: &mut Seat<P, K>, slot: Slot) -> Ruled
        requires { IsOf self.now seat.old }
        ensures goes_on { GoesOn seat.old seat.new }
        ensures kept { own_calls seat.new ≡ own_calls seat.old }
        ensures rule { result.rule ≡ rule_at seat.new.seen slot }
        ensures entries { result.entries ≡ length seat.new.seen }
    {
        let desk = enter(rt, &self.table.shared, &mut seat.place);
        let ruled = Ruled {
            rule: desk.rule(slot),
            entries: board_entries(desk.board()),
        };
        leave(&self.table.shared, &mut seat.place, desk);
        ruled
    }

    /// Copies entries from this place of the journal on, the oldest first, as many as there is room for. It copies none, and says so,
    /// where one of them is forgotten.
    pub fn copy_entries<R: Wait>(
        &self,
        rt: &R,
        seat: &mut Seat<P, K>,
        from: u64,
        entries: &mut Vec<Entry>,
    ) -> bool
        requires { IsOf self.now seat.old }
        ensures goes_on { GoesOn seat.old seat.new }
        ensures kept { own_calls seat.new ≡ own_calls seat.old }
        ensures copied { IsTrue result → entries.new.items ≡ entries.old.items
            ++ take (vec_capacity entries.old - vec_len entries.old)
            (drop from (past seat.new.seen)) }
        ensures none { IsFalse result → entries.new ≡ entries.old }
        ensures forgotten { IsFalse result ↔ (from < forgotten K.kept (length seat.new.seen)) }
    {
        let desk = enter(rt, &self.table.shared, &mut seat.place);
        let is_kept = desk.copy_entries(from, entries);
        leave(&self.table.shared, &mut seat.place, desk);
        is_kept
    }

    /// Makes a fail of a service of which nothing was heard from this place of the journal on, if one is to be made: it is known, not
    /// shut down, and not down already without a pass.
    pub fn fail_unheard<R: Wait>(
        &self,
        rt: &R,
        seat: &mut Seat<P, K>,
        slot: Slot,
        from: u64,
    ) -> Option<Effect>
        requires { IsOf self.now seat.old }
        ensures made { IfSome result (λ effect. IsCarriedOut seat.old seat.new
            (Some (calls.Observe slot Fail)) effect.result) }
        ensures due { IfSome result (λ effect. is_to_fail K.kept seat.old.number slot from
            (seen_before effect.result seat.new.seen) ≡ true) }
        ensures none { IfNone result
            (is_to_fail K.kept seat.old.number slot from seat.new.seen ≡ false) }
        ensures goes_on { IfNone result (GoesOn seat.old seat.new) }
        ensures kept { IfNone result (own_calls seat.new ≡ own_calls seat.old) }
        ensures shows { IfSome result (λ effect. IfOk effect.result (λ reply.
            IsTrue effect.shows ↔ Shows seat.new.seen)) }
        ensures placed { IfSome result (λ effect. IfOk effect.result (λ reply.
            effect.at ≡ Some (length seat.new.seen - 1))) }
        ensures refused { IfSome result (λ effect. IfErr effect.result (λ refusal.
            effect ≡ refused_effect refusal)) }
    {
        let number = seat.number;
        let shared = &self.table.shared;
        let mut desk = enter(rt, shared, &mut seat.place);
        if !desk.is_to_fail(number, slot, from) {
            leave(shared, &mut seat.place, desk);
            return None;
        }
        let call = Call::Observe(slot, Finding::Fail);
        match desk.change(number, call, None) {
            Ok(made) => {
                let entry = entry(number, &call, made.reply);
                finish(shared, &mut seat.place, &mut seat.made, desk, entry);
                Some(made.effect())
            }
            Err((refusal, _)) => {
                leave(shared, &mut seat.place, desk);
                Some(Effect::of_refusal(refusal))
            }
        }
    }
}
