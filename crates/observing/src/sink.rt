use crate::note::Note;
use crate::target::Target;
use crate::verdict::Verdict;

/// Whoever is shown what comes about.
pub trait Sink {
    /// A look has ended.
    fn looked(&mut self, target: &Target, verdict: Verdict);

    /// There is something else to know. A note of a target has its place among these.
    fn noted(&mut self, targets: &[Target], note: &Note);

    /// Whether to go on looking.
    fn goes_on(&self) -> bool;
}
