use crate::desk::Desk;
use crate::observed::Telling;
use crate::report::Report;
use crate::sink::Sink;
use crate::target::Target;
use crate::verdict::Verdict;
use std::sync::Wait;

/// What the newest look at each target came to.
#[derive(Drop)]
pub(crate) struct Ledger<'a> {
    targets: &'a [Target],
    verdicts: Vec<Option<Verdict>>,
    /// How many reports found no room.
    lost: u64,
}

impl<'a> Ledger<'a> {
    /// One with a place for each target.
    pub(crate) fn new(targets: &'a [Target], verdicts: Vec<Option<Verdict>>) -> Ledger<'a> {
        Ledger {
            targets,
            verdicts,
            lost: 0,
        }
    }

    /// What the newest looks came to, and what was told, where a teller has told so much.
    pub(crate) fn into_parts(self, telling: Telling) -> (Vec<Option<Verdict>>, Telling) {
        let untold = telling.untold.saturating_add(self.lost);
        (self.verdicts, Telling { untold, ..telling })
    }

    /// Whether a look at the target of this place has ended.
    pub(crate) fn has(&self, place: usize) -> bool {
        match self.verdicts.get(place) {
            Some(verdict) => verdict.is_some(),
            None => false,
        }
    }

    /// Whether a look at each target has ended.
    pub(crate) fn is_full(&self) -> bool {
        self.verdicts.iter().all(|verdict| verdict.is_some())
    }

    /// Notes what a look came to, if it has ended, shows it, and hands its report to the teller.
    pub(crate) fn enter<R: Wait, S: Sink>(
        &mut self,
        rt: &R,
        desk: &Desk,
        sink: &mut S,
        place: usize,
        told: Option<Verdict>,
    ) {
        let Some(verdict) = told else {
            return;
        };
        if let Some(entry) = self.verdicts.get_mut(place) {
            *entry = Some(verdict);
        }
        let targets = self.targets;
        if let Some(target) = targets.get(place) {
            sink.looked(target, verdict);
        }
        let report = Report {
            place,
            passes: verdict.is_pass(),
        };
        if !desk.reports.put(rt, report) {
            self.lost = self.lost.saturating_add(1);
        }
    }

    /// Shows what the teller has noted.
    pub(crate) fn tell_notes<R: Wait, S: Sink>(&self, rt: &R, desk: &Desk, sink: &mut S) {
        for _ in 0..u64::MAX {
            match desk.notes.take(rt) {
                Some(note) => sink.noted(self.targets, &note),
                None => return,
            }
        }
    }
}
