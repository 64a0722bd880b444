ghost use Rattle.std.specs.Prelude.{ℕ, List};
ghost use Rattle.std.specs.Str.{NoCharPasses};
ghost use Rattle.safe_text.specs.Safe.{is_unsafe, safe_text};

/// A text that can be printed has no unsafe character.
pub fn nothing_unsafe()
    ensures { (text : List ℕ) → NoCharPasses is_unsafe (safe_text text) }
{}
