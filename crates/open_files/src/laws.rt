ghost use Rattle.std.specs.Prelude.{◌≡◌, ℕ, List};
ghost use Rattle.open_files.specs.Limits.{IsOpenFilesIn};
ghost use Rattle.open_files.specs.declared.limits.OpenFiles.{OpenFiles};

/// A text says one limit at most, so that what is read of it is the only one.
pub fn one_limit()
    ensures { (text : List ℕ) (a b : OpenFiles)
        → IsOpenFilesIn text a → IsOpenFilesIn text b → a ≡ b }
{}
