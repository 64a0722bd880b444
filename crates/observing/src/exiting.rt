ghost use Rattle.std.specs.Prelude.{◌≡◌};
ghost use Rattle.std.specs.List.{list_all};
ghost use Rattle.observing.specs.Verdict.{exit_status_of, is_pass};

use crate::verdict::Verdict;

/// The exit status of one look at each target: 0 if all passed, 3 if one failed, and 1 if one could not be told.
pub fn exit_status(verdicts: &[Verdict], all_told: bool) -> u8
    ensures { result ≡ exit_status_of verdicts.now all_told }
{
    if !all_told {
        return 1;
    }
    if all_pass(verdicts) { 0 } else { 3 }
}

fn all_pass(verdicts: &[Verdict]) -> bool
    ensures { result ≡ list_all is_pass verdicts.now }
{
    verdicts.iter().all(|verdict| verdict.is_pass())
}
