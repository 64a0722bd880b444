/// One who is told each status of a Watch as it comes.
pub trait Listener {
    ghost use Rattle.std.specs.Prelude.{◌≡◌, ℕ, [], ◌∷◌, List, Option, Bool, false};
    ghost use Rattle.std.specs.Io.KnownBytes.{Appends};

    // the numbers that it was told, in their order, where they are known, and whether it wants no more
    ghost heard: { Self → Option (List ℕ) };

    ghost has_enough: { Self → Bool };

    /// Takes the number of a status. It tells whether it wants no more, and is then told none.
    fn hear(&mut self, status: u64) -> bool
        requires { has_enough self.old ≡ false }
        ensures heard { Appends (heard self.old) (heard self.new) (status ∷ []) }
        ensures enough { result ≡ has_enough self.new };
}
