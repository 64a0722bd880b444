use reactor::{Connection, Left, Machine, Occasion};
use std::alloc::Global;
use std::time::Instant;

/// Which of a loop's connections has a turn, and why.
#[derive(Clone, Copy)]
pub struct Visit {
    /// Its key, which is no other's while it is held.
    pub key: usize,
    /// How many connections are held whose conversations are not over.
    pub talking: usize,
    pub occasion: Occasion,
}

/// What takes in a loop's connections, and gives them their turns.
///
/// `is_ready` is what it needs for that, and `stays` what is left of it, whatever turns it has given.
pub trait Handler<S, M: Machine> {
    ghost use Rattle.std.specs.Prelude.{◌≡◌, ◌<◌, false, length, IfSome};
    ghost use Rattle.reactor.specs.Connection.{is_over, may_look_at, state_of};
    ghost use Rattle.web_call.specs.declared.bell.Turn.{Turn};

    ghost is_ready: { Self → Type 0 };

    ghost stays: { Self → Self → Type 0 };

    /// A connection that was accepted now, beside so many whose conversations are not over; none where it is closed at once.
    fn open(
        &mut self,
        alloc: Global,
        stream: S,
        now: Instant,
        talking: usize,
    ) -> Option<Connection<S, M>>
        requires ready { is_ready self.old }
        ensures ready { is_ready self.new }
        ensures stays { stays self.old self.new }
        ensures waits { IfSome result (λ connection. may_look_at M.watches M.waiting (state_of connection) ≡ false) };

    /// A turn of a connection.
    fn turn(
        &mut self,
        alloc: Global,
        visit: Visit,
        connection: &mut Connection<S, M>,
        buffer: &mut [u8],
    ) -> Left
        requires ready { is_ready self.old }
        requires room { 0 < length buffer.old }
        ensures ready { is_ready self.new }
        ensures stays { stays self.old self.new }
        ensures ended { visit.occasion.then ≡ Turn.End → is_over result ≡ false
            → may_look_at M.watches M.waiting (state_of connection.new) ≡ false };

    /// Whether no more conversations are held beside so many, so that one that has been quiet for a while makes room for another.
    fn is_full(&self, talking: usize) -> bool {
        let _ = talking;
        false
    }

    /// Lets the looks behind it see what has changed by then.
    fn renew(&mut self)
        requires ready { is_ready self.old }
        ensures ready { is_ready self.new }
        ensures stays { stays self.old self.new }
    {}

    ghost stays_self: { (a : Self) → stays a a };

    ghost stays_on: { (a b c : Self) → stays a b → stays b c → stays a c };
}
