use std::alloc::Global;

/// One side of a conversation over a connection, apart from who reads and writes its bytes.
///
/// Whoever holds a machine gives it bytes while it takes some, sends what it has to send, and lets its host take a step with it where
/// nothing waits to be sent. `takes` is how many bytes it takes now at most, `waiting` what it has to send, and `is_closed` says that it
/// never takes bytes again. `watches` says that it is told changes as they come, and takes no bytes meanwhile. `moves` says what it makes
/// by itself of the bytes that it is given and of those that are sent. `begins` says that it is new, and `stands` what it is once it has
/// moved this since then.
pub trait Machine: Drop {
    ghost use Rattle.std.specs.Prelude.{◌≡◌, ◌≤◌, ◌<◌, ◌+◌, ◌-◌, ℕ, List, Option, Bool, true, take, length, IsTrue, IsFalse};
    ghost use Rattle.reactor.specs.Moved.{Moved, nothing_moved, only_ended, only_read, only_sent};

    ghost takes: { Self → ℕ };

    ghost waiting: { Self → List ℕ };

    ghost is_closed: { Self → Bool };

    ghost watches: { Self → Bool };

    /// How many milliseconds its peer has to send all that is wanted before the first answer; none where it may take its time.
    const PATIENCE: Option<u64>;

    ghost PATIENCE: { Option ℕ };

    ghost moves: { Self → Self → Moved → Type 0 };

    ghost begins: { Self → Type 0 };

    ghost stands: { Moved → Self → Type 0 };

    /// How many bytes it takes now at most. More may have to be read to know where what is its own ends.
    fn room(&self) -> usize
        ensures { result ≡ takes self.now };

    /// Takes a front of the bytes, and tells how many. What stands behind is not its own.
    fn give(&mut self, alloc: Global, bytes: &[u8]) -> usize
        requires { length bytes.now ≤ takes self.old }
        ensures bound { result ≤ length bytes.now }
        ensures moves { moves self.old self.new (only_read bytes.now (length bytes.now - result)) }
        ensures closed { result < length bytes.now → is_closed self.new ≡ true };

    /// Tells it that no more bytes come. It says whether it goes on, or can't without them.
    fn end_input(&mut self) -> bool
        requires { 0 < takes self.old }
        ensures goes_on { IsTrue result → moves self.old self.new only_ended }
        ensures stays { IsFalse result → self.new ≡ self.old };

    /// What it has to send.
    fn to_send(&self) -> &[u8]
        ensures { result.now ≡ waiting self.now };

    /// Whether it is told changes as they come.
    fn is_watching(&self) -> bool
        ensures { result ≡ watches self.now };

    /// Whether it was ended since it was behind: more had changed than is kept for it.
    fn is_behind(&self) -> bool;

    /// Whether its peer may still be sending when all is answered and sent, so that it could lose the end of that.
    fn may_be_sent_more(&self) -> bool;

    /// So many bytes of it were sent.
    fn sent(&mut self, count: usize)
        requires { count ≤ length (waiting self.old) }
        ensures moves { moves self.old self.new (only_sent (take count (waiting self.old))) };

    ghost begins_so: { (m : Self) → begins m → stands nothing_moved m };

    ghost watching_takes_none: { (m : Self) → watches m ≡ true → takes m ≡ 0 };
}
