//! A session as a machine, and a console with the server beside it as its host.

use crate::host::{Host, Step};
use crate::machine::Machine;
use control::{Server, Session};
use desk_core::Console;
use probe_core::{Maker, Probe};
use std::alloc::Global;
use std::marker::PhantomData;
use web_call::Turn;

impl Machine for Session {
    ghost use Rattle.reactor.specs.TalkingLaws.{session_begins};
    ghost use Rattle.std.specs.Prelude.{◌≡◌, None, false};
    ghost use Rattle.std.proofs.Common.{true≢false, sym};
    ghost use Rattle.control.specs.Session.{SessionState, begun};
    ghost use Rattle.reactor.specs.Talking.{HasTaken, IsSessionOf, taken_by};

    ghost takes = { taken_by };

    ghost waiting = { λ session. session.waiting };

    ghost is_closed = { λ session. session.has_ended };

    ghost watches = { λ session. false };

    const PATIENCE: Option<u64> = None;

    ghost PATIENCE = { None };

    ghost moves = { HasTaken };

    ghost begins = { λ session. session ≡ begun };

    ghost stands = { IsSessionOf };

    fn room(&self) -> usize {
        if self.has_ended() {
            0
        } else {
            Session::room(self)
        }
    }

    fn give(&mut self, alloc: Global, bytes: &[u8]) -> usize {
        let _ = alloc;
        Session::give(self, bytes)
    }

    fn end_input(&mut self) -> bool {
        self.end();
        self.has_ended()
    }

    fn to_send(&self) -> &[u8] {
        Session::to_send(self)
    }

    fn is_watching(&self) -> bool {
        false
    }

    fn is_behind(&self) -> bool {
        false
    }

    fn may_be_sent_more(&self) -> bool {
        true
    }

    fn sent(&mut self, count: usize) {
        Session::sent(self, count);
    }

    ghost begins_so = { session_begins };

    ghost watching_takes_none = { λ session is. absurd (true≢false (sym is)) };
}

/// What sessions are held over: a console, the server beside it, and what makes the probes of the services that they register.
#[derive(Drop)]
pub struct Attendant<'a, P: Probe, C, V, M> {
    pub console: &'a mut C,
    pub server: V,
    pub maker: &'a M,
    pub of: PhantomData<P>,
}

impl<P: Probe, C: Console<P>, V: Server, M: Maker<P>> Host<Session> for Attendant<'_, P, C, V, M> {
    ghost use Rattle.std.specs.Prelude.{◌≡◌, false, refl};
    ghost use Rattle.std.proofs.Common.{subst, ◌∙◌};
    ghost use Rattle.control.specs.Beside.{IsLineMetBeside};
    ghost use Rattle.control.specs.Talk.{nobody};
    ghost use Rattle.reactor.specs.Attendant.{keeps_names, stands};
    ghost use Rattle.reactor.specs.Talking.{HasSaid, IsIdle, IsOver};
    ghost use Rattle.reactor.specs.TalkingLaws.{as_many_met, closed_stays, said_alone, said_beside, said_nothing, said_still, said_then, session_goes_on, taken_none};
    ghost use Rattle.web_call.specs.Answer.{source_of};

    ghost source = { λ a. source_of (C.names a.console.now) C.kept false };

    ghost goes = { λ t a b m n x. HasSaid nobody (IsLineMetBeside C.seen C.kept C.looks C.answers V.terms V.counted V.woken V.expected V.stopped (C.names a.console.now)) (C.names a.console.now) (stands a) (stands b) m n x × (C.names b.console.now ≡ C.names a.console.now) × (b.console.ghost_name ≡ a.console.ghost_name) };

    ghost idle = { λ t session. IsIdle session };

    ghost rests = { λ t host session. ⊥ };

    ghost is_done = { IsOver };

    ghost is_starved = { λ session. ⊥ };

    ghost stays = { λ a b. C.names b.console.now ≡ C.names a.console.now };

    ghost spans = { λ a b m n x. HasSaid (keeps_names C.names) (IsLineMetBeside C.seen C.kept C.looks C.answers V.terms V.counted V.woken V.expected V.stopped (C.names a.console.now)) (C.names a.console.now) (stands a) (stands b) m n x × (C.names b.console.now ≡ C.names a.console.now) };

    fn step(&mut self, alloc: Global, session: &mut Session, then: Turn) -> Step {
        if then == Turn::End {
            return Step::Done;
        }
        if session.has_line() {
            session.answer(alloc, self.console, &mut self.server, self.maker);
            return Step::Went;
        }
        if session.is_over() || session.has_ended() {
            return Step::Done;
        }
        Step::Wants
    }

    ghost goes_nowhere = { λ t a m. (said_nothing (stands a) m, refl, refl) };

    ghost goes_alone = { λ t a m n x taken. (said_alone (stands a) taken, refl, refl) };

    ghost goes_on = { λ t a b c m n o x y p q. (said_then p.0 (subst (λ names. HasSaid nobody (IsLineMetBeside C.seen C.kept C.looks C.answers V.terms V.counted V.woken V.expected V.stopped names) names (stands b) (stands c) n o y) p.1 q.0), q.1 ∙ p.1, q.2 ∙ p.2) };

    ghost rests_to_look = { λ t a m none. absurd none };

    ghost goes_stays = { λ t a b m n x p. p.1 };

    ghost goes_stands = { λ t a b m n past x stood p. session_goes_on stood p.0.talked (as_many_met p.0.are_met) };

    ghost stays_closed = { λ t a b m n x is p. closed_stays is p.0 };

    ghost takes_none = { taken_none };

    ghost stays_self = { λ a. refl };

    ghost stays_on = { λ a b c p q. q ∙ p };

    ghost spans_nothing = { λ a m. (said_nothing (stands a) m, refl) };

    ghost spans_waiting = { λ a b c m n x p moves. (said_still p.0 moves, moves ∙ p.1) };

    ghost spans_on = { λ t a b c m n o x y p q. (said_then p.0 (subst (λ names. HasSaid (keeps_names C.names) (IsLineMetBeside C.seen C.kept C.looks C.answers V.terms V.counted V.woken V.expected V.stopped names) names (stands b) (stands c) n o y) p.1 (said_beside q.0)), q.1 ∙ p.1) };
}
