use crate::machine::Machine;
use std::alloc::Global;
use web_call::Turn;

/// What a step of a host came to.
#[derive(Clone, Copy)]
pub enum Step {
    /// The machine has gone on, and may have more to send.
    Went,
    /// It takes bytes.
    Wants,
    /// It has been told all that there is, and waits for a change.
    Rests,
    /// The conversation is at its end, and all is sent.
    Done,
    /// An allocation failed, and it can't go on.
    Starved,
}

/// What machines are held over: it answers them, and tells them of changes. What it answers from is its `source`.
///
/// `goes` says what has become of the host and a machine between two moments of a turn, and what was moved; `spans` says the same of
/// many turns, between which others have moved the host on. `stays` is what every step leaves of the host. A machine is `idle` that
/// waits for bytes, with nothing left to answer; it `rests` where it has been told all that there is, it `is_done` where all is
/// answered and sent, and `is_starved` where an allocation failed.
pub trait Host<M: Machine> {
    ghost use Rattle.std.specs.Prelude.{◌≡◌, ℕ, true, false, []};
    ghost use Rattle.reactor.specs.Moved.{Moved, followed_by, nothing_moved};
    ghost use Rattle.reactor.specs.Turn.{LeavesAt, stepped};
    ghost use Rattle.web_call.specs.Answer.{Source};
    ghost use Rattle.web_call.specs.declared.bell.Turn.{Turn as Bell};

    ghost source: { Self → Source };

    ghost goes: { Bell → Self → Self → M → M → Moved → Type 0 };

    ghost idle: { Bell → M → Type 0 };

    ghost rests: { Bell → Self → M → Type 0 };

    ghost is_done: { Bell → M → Type 0 };

    ghost is_starved: { M → Type 0 };

    ghost stays: { Self → Self → Type 0 };

    ghost spans: { Self → Self → M → M → Moved → Type 0 };

    /// Takes a step with a machine that has sent all that it had to send: it answers it, tells it of a change, or ends it.
    fn step(&mut self, alloc: Global, machine: &mut M, then: Turn) -> Step
        requires { M.waiting machine.old ≡ [] }
        ensures goes { goes then self.old self.new machine.old machine.new
            (stepped (source self.new) result) }
        ensures leaves { LeavesAt M.takes M.waiting (idle then) (rests then self.new) (is_done then)
            is_starved
            result machine.new };

    ghost goes_nowhere: { (then : Bell) (a : Self) (m : M) → goes then a a m m nothing_moved };

    ghost goes_alone: { (then : Bell) (a : Self) (m n : M) (x : Moved) → M.moves m n x → goes then a a m n x };

    ghost goes_on: { (then : Bell) (a b c : Self) (m n o : M) (x y : Moved) → goes then a b m n x → goes then b c n o y → goes then a c m o (followed_by x y) };

    ghost rests_to_look: { (then : Bell) (a : Self) (m : M) → rests then a m → then ≡ Bell.Look };

    ghost goes_stays: { (then : Bell) (a b : Self) (m n : M) (x : Moved) → goes then a b m n x → stays a b };

    ghost goes_stands: { (then : Bell) (a b : Self) (m n : M) (past x : Moved) → M.stands past m → goes then a b m n x → M.stands (followed_by past x) n };

    ghost stays_closed: { (then : Bell) (a b : Self) (m n : M) (x : Moved) → M.is_closed m ≡ true → goes then a b m n x → (x.read ≡ []) × (x.behind ≡ 0) × (M.is_closed n ≡ true) };

    ghost takes_none: { (m : M) → M.is_closed m ≡ true → M.takes m ≡ 0 };

    ghost stays_self: { (a : Self) → stays a a };

    ghost stays_on: { (a b c : Self) → stays a b → stays b c → stays a c };

    ghost spans_nothing: { (a : Self) (m : M) → spans a a m m nothing_moved };

    ghost spans_waiting: { (a b c : Self) (m n : M) (x : Moved) → spans a b m n x → stays b c → spans a c m n x };

    ghost spans_on: { (then : Bell) (a b c : Self) (m n o : M) (x y : Moved) → spans a b m n x → goes then b c n o y → spans a c m o (followed_by x y) };
}
