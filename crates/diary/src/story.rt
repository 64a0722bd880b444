//! What is known of a registry besides the entries that are told next.

use crate::batch::Batch;
use crate::page::Page;
use crate::pen::Pen;
use crate::shown::Shown;
use chronicle::Newest;
use desk_core::{Call, Entry, Finding, Reply, Slot};

/// What the entries that were told have come to.
#[derive(Clone, Copy)]
pub(crate) struct Story {
    shown: Shown,
    /// How many fails of one service the watchdog has made last, of which nobody was told yet.
    fails: u32,
    /// The entry of which it was not known yet who asked for it.
    awaited: Option<u32>,
}

impl Story {
    pub(crate) fn new() -> Story {
        Story {
            shown: Shown::new(),
            fails: 0,
            awaited: None,
        }
    }

    /// Goes on where the board is this one.
    pub(crate) fn skip(&mut self, board: u64) {
        self.shown.take_over(board);
        self.fails = 0;
    }

    /// Whether the entry at this place is left for the next time, since it is not known yet who asked for it. It is left once.
    fn awaits(&mut self, page: &Page<'_>, place: u32) -> bool {
        if page.is_noted(place) || self.awaited == Some(place) {
            return false;
        }
        self.awaited = Some(place);
        true
    }

    /// Takes the changes over that are of entries before those of the batch, and tells how many there are.
    fn take_over(&mut self, batch: &Batch) -> usize {
        let older = batch.older_changes();
        for index in 0..older {
            if let Some(change) = batch.change(index) {
                self.shown.change(&change);
            }
        }
        older
    }

    /// Tells what the entry at a place changed, where its first change is the one at an index, and the index behind its last one.
    fn tell_changes(
        &mut self,
        page: &Page<'_>,
        pen: &mut Pen,
        batch: &Batch,
        entry: &Entry,
        place: u32,
        first: usize,
    ) -> usize {
        for next in first..batch.change_count() {
            let Some(change) = batch.change_at(next, place) else {
                return next;
            };
            let old = self.shown.change(&change);
            page.keep(change.slot, Newest::Change, place);
            page.tell_change(pen, entry, old, &change);
        }
        batch.change_count().max(first)
    }

    /// Counts a fail that the watchdog made of a service, and tells that this was not heard from where it is the last one.
    fn tell_expiry(
        &mut self,
        page: &Page<'_>,
        pen: &mut Pen,
        slot: Slot,
        place: u32,
        goes_on: bool,
    ) {
        let fails = self.fails.saturating_add(1);
        if goes_on {
            self.fails = fails;
            return;
        }
        self.fails = 0;
        page.tell_expiry(pen, slot, fails, place);
    }
}

/// The service of which this entry is a fail that the watchdog made by the seat of this number.
fn expired_by(own: u16, entry: &Entry) -> Option<Slot> {
    match &entry.call {
        Call::Observe(slot, Finding::Fail) => { if entry.seat == own { Some(*slot) } else { None } }
        _ => None,
    }
}

/// Whether an entry is a report of the service that was heard, by another seat than this one.
fn is_report_of(own: u16, entry: &Entry, slot: Slot) -> bool {
    reported_by(own, entry) == Some(slot)
}

/// The service of which this entry is a report that was heard, by another seat than the one of this number.
fn reported_by(own: u16, entry: &Entry) -> Option<Slot> {
    match &entry.call {
        Call::Observe(slot, _) => {
            if entry.seat != own && entry.reply == Reply::Done {
                Some(*slot)
            } else {
                None
            }
        }
        _ => None,
    }
}

/// Whether the watchdog makes the next of its fails, from an index of a batch on, of the service that it has failed before, and nothing
/// was heard of that in between.
fn fails_on(own: u16, batch: &Batch, first: usize, slot: Slot) -> bool {
    for index in first..batch.ready() {
        let Some(entry) = batch.entry(index) else {
            return false;
        };
        if is_report_of(own, &entry, slot) {
            return false;
        }
        if let Some(next) = expired_by(own, &entry) {
            return next == slot;
        }
    }
    false
}

/// Tells of the entries of a batch, and whether there may be more to tell at once. The watchdog makes its fails by the seat of this
/// number.
pub(crate) fn tell_batch(
    page: &Page<'_>,
    pen: &mut Pen,
    story: &mut Story,
    batch: &mut Batch,
    own: u16,
) -> bool {
    let mut next_change = story.take_over(batch);
    let mut told: u32 = 0;
    for index in 0..batch.ready() {
        let place = batch.place().saturating_add(told);
        let Some(entry) = batch.entry(index) else {
            break;
        };
        if batch.change_at(next_change, place).is_some() && story.awaits(page, place) {
            break;
        }
        if let Some(slot) = reported_by(own, &entry) {
            page.keep(slot, Newest::Report, place);
        }
        if let Some(slot) = expired_by(own, &entry) {
            let goes_on = fails_on(own, batch, index.saturating_add(1), slot);
            story.tell_expiry(page, pen, slot, place, goes_on);
        }
        next_change = story.tell_changes(page, pen, batch, &entry, place, next_change);
        told = told.saturating_add(1);
    }
    let has_more = batch.is_full() || batch.has_behind(told);
    batch.advance(told, next_change as u64);
    has_more
}
