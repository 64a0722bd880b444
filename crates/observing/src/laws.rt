ghost use Rattle.std.specs.Prelude.{◌≡◌, ◌+◌, ℕ};
ghost use Rattle.observing.specs.Look.{looks_in};
ghost use Rattle.observing.specs.Lookout.{Runs, look_of};
ghost use Rattle.observing.specs.declared.lookout.Lookout.{Lookout};

/// Each look ends in one report: over any while there are as many reports as looks that began, but for those in course at its ends.
pub fn one_report_each()
    ensures { (old new : Lookout) (begun reports : ℕ) → Runs old begun reports new
        → looks_in (look_of old) + begun ≡ looks_in (look_of new) + reports }
{}
