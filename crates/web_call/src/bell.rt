/// What a bell tells a watch to do.
#[derive(Clone, Copy, Debug, PartialEq, Eq)]
pub enum Turn {
    /// Take one step.
    Look,
    /// Take no more.
    End,
}

/// What a watch waits for: when to look for a change, and when to end. A bell that is over ends for good.
pub trait Bell {
    ghost use Rattle.std.specs.Prelude.{◌≡◌, ℕ, ◌+◌, Bool, true, false};

    // how many Looks it has given, and whether it has given an End
    ghost given: { Self → ℕ };

    ghost is_over: { Self → Bool };

    /// May wait for as long as there is nothing to look for. After an End it gives no Look.
    fn wait(&mut self) -> Turn
        ensures look { result ≡ Turn.Look → (is_over self.old ≡ false) × (is_over self.new ≡ false)
            × (given self.new ≡ given self.old + 1) }
        ensures end { result ≡ Turn.End → (is_over self.new ≡ true)
            × (given self.new ≡ given self.old) };
}
