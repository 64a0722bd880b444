//! A call as a machine, and a door as its host.

ghost use Rattle.std.specs.Prelude.{◌≡◌, [], List, true};
ghost use Rattle.desk_core.specs.declared.entry.Entry.{Entry};
ghost use Rattle.reactor.specs.Calling.{HasBeenTold, DoorHasServed, HasStarved, IsAnswered, taken_by};
ghost use Rattle.reactor.specs.Turn.{LeavesAt, stepped};
ghost use Rattle.web_call.specs.Answer.{source_of};
ghost use Rattle.web_call.specs.Stages.{is_open, is_watching, to_send};

use crate::host::{Host, Step};
use crate::machine::Machine;
use grpc_frame::Code;
use std::alloc::Global;
use web_call::{Call, Door, Outcome, Turn};

/// More bytes than a request may have, so that the read that takes its end takes what has come behind it by then.
pub const MOST_TAKEN: usize = 16_640;

/// How many milliseconds a request may take to be whole.
const REQUEST_MILLIS: u64 = 10_000;

impl Machine for Call {
    ghost use Rattle.reactor.specs.Calling.{HasTaken, IsCallOf, taken_by};
    ghost use Rattle.std.specs.Prelude.{Some, not};
    ghost use Rattle.web_call.specs.Stages.{is_open, is_watching, to_send};
    ghost use Rattle.reactor.specs.CallingLaws.{call_begins, watching_takes_none};
    ghost use Rattle.web_call.specs.Answer.{Source};
    ghost use Rattle.web_call.specs.Past.{Stands, begun};

    ghost takes = { taken_by };

    ghost waiting = { to_send };

    ghost is_closed = { λ call. not (is_open call) };

    ghost watches = { is_watching };

    const PATIENCE: Option<u64> = Some(REQUEST_MILLIS);

    ghost PATIENCE = { Some 10000 };

    ghost moves = { HasTaken };

    ghost begins = { λ call. (source : Source) → Stands source begun call };

    ghost stands = { IsCallOf };

    fn room(&self) -> usize {
        if self.wanted() > 0 { MOST_TAKEN } else { 0 }
    }

    fn give(&mut self, alloc: Global, bytes: &[u8]) -> usize {
        Call::give(self, alloc, bytes)
    }

    fn end_input(&mut self) -> bool {
        false
    }

    fn to_send(&self) -> &[u8] {
        Call::to_send(self)
    }

    fn is_watching(&self) -> bool {
        Call::is_watching(self)
    }

    fn is_behind(&self) -> bool {
        matches!(self.outcome(), Some(Outcome::Behind { .. }))
    }

    /// It was refused, maybe before it was read whole.
    fn may_be_sent_more(&self) -> bool {
        match self.outcome() {
            Some(Outcome::Http(_)) => true,
            Some(Outcome::Status(code)) => code != Code::Ok && code != Code::NotFound,
            Some(Outcome::Plain | Outcome::Watched { .. } | Outcome::Behind { .. }) | None => false,
        }
    }

    fn sent(&mut self, count: usize) {
        Call::sent(self, count);
    }

    ghost begins_so = { λ call is. call_begins is };

    ghost watching_takes_none = { watching_takes_none };
}

impl<D: Door> Host<Call> for D {
    ghost use Rattle.std.specs.Prelude.{◌≡◌, List, [], ◌++◌, true};
    ghost use Rattle.desk_core.specs.declared.entry.Entry.{Entry};
    ghost use Rattle.web_call.specs.Answer.{source_of};
    ghost use Rattle.reactor.specs.CallingLaws.{call_goes_on, closed_stays, served_alone, served_nowhere, served_stays, served_then, spans_nothing, spans_then, spans_waiting, stays_same, stays_then, taken_none};
    ghost use Rattle.reactor.specs.Calling.{DoorStays, HasBeenTold, DoorHasServed, HasSpanned, HasStarved, IsAnswered, IsTransitive};

    ghost source = { λ a. source_of (D.names a) D.kept D.is_plain };

    ghost goes = { λ t a b m n x. (asked : List (List Entry)) × DoorHasServed (source_of (D.names a) D.kept D.is_plain) D.seen D.names D.follows D.stays t a b m n x asked };

    ghost idle = { λ t call. is_open call ≡ true };

    ghost rests = { λ t door call. HasBeenTold t (D.seen door) call };

    ghost is_done = { λ t call. IsAnswered call };

    ghost is_starved = { HasStarved };

    ghost stays = { DoorStays D.seen D.names D.follows D.stays };

    ghost spans = { λ a b m n x. IsTransitive D.follows → (asked : List (List Entry)) × HasSpanned (source_of (D.names a) D.kept D.is_plain) D.seen D.names D.follows a b m n x asked };

    /// A call that starves as it is answered has gone on by that; the next step says that it starved.
    fn step(&mut self, alloc: Global, call: &mut Call, then: Turn) -> Step {
        if call.wanted() > 0 {
            return Step::Wants;
        }
        if call.is_whole() {
            call.answer(alloc, self);
            return Step::Went;
        }
        if call.is_starved() {
            return Step::Starved;
        }
        if !call.is_watching() {
            return Step::Done;
        }
        match then {
            Turn::Look => look(self, call),
            Turn::End => {
                call.end();
                Step::Went
            }
        }
    }

    ghost goes_nowhere = { λ t a m. ([], served_nowhere (source_of (D.names a) D.kept D.is_plain) t a m (D.stays_self a)) };

    ghost goes_alone = { λ t a m n x taken. ([], served_alone (source_of (D.names a) D.kept D.is_plain) t a (D.stays_self a) taken) };

    ghost goes_on = { λ t a b c m n o x y p q. (p.0 ++ q.0, served_then D.kept D.is_plain (D.stays_on a b c) p.1 q.1) };

    ghost rests_to_look = { λ t a m told. told.looks };

    ghost goes_stays = { λ t a b m n x p. served_stays p.1 };

    ghost goes_stands = { λ t a b m n past x stood p. call_goes_on stood p.1 };

    ghost stays_closed = { λ t a b m n x is p. closed_stays is p.1 };

    ghost takes_none = { taken_none };

    ghost stays_self = { λ a. stays_same a (D.stays_self a) };

    ghost stays_on = { λ a b c. stays_then (D.stays_on a b c) };

    ghost spans_nothing = { λ a m on. ([], spans_nothing (source_of (D.names a) D.kept D.is_plain) a m) };

    ghost spans_waiting = { λ a b c m n x p others on. let before = p on in (before.0, spans_waiting on before.1 others) };

    ghost spans_on = { λ t a b c m n o x y p q on. let before = p on in (before.0 ++ q.0, spans_then D.kept D.is_plain on before.1 q.1) };
}

/// Lets a Watch look for a change.
fn look<D: Door>(door: &mut D, call: &mut Call) -> Step
    requires { (is_watching call.old ≡ true) × (to_send call.old ≡ []) }
    ensures served { (asked : List (List Entry)) × DoorHasServed (source_of (D.names door.old) D.kept D.is_plain)
        D.seen D.names D.follows D.stays Turn.Look door.old door.new call.old call.new
        (stepped (source_of (D.names door.new) D.kept D.is_plain) result) asked }
    ensures leaves { LeavesAt taken_by to_send (λ call. is_open call ≡ true) (HasBeenTold Turn.Look (D.seen door.new)) IsAnswered
        HasStarved result call.new }
{
    call.look(door);
    if call.is_watching() && call.to_send().is_empty() {
        Step::Rests
    } else {
        Step::Went
    }
}
