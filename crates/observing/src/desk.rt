use crate::mailbox::Mailbox;
use crate::note::Note;
use crate::report::Report;
use crate::resolver::{Found, Lookup};
use mio::Waker;
use std::alloc::{AllocError, Global};
use std::sync::Wait;

/// How many reports may wait to be told.
const REPORTS: usize = 4096;

const NOTES: usize = 256;

/// What the loop, the resolver and the teller hand to each other.
pub(crate) struct Desk {
    pub(crate) lookups: Mailbox<Lookup>,
    pub(crate) found: Mailbox<Found>,
    pub(crate) reports: Mailbox<Report>,
    pub(crate) notes: Mailbox<Note>,
    waker: Waker,
}

impl Drop for Desk {
    fn drop(self) {
        let Desk {
            lookups: _,
            found: _,
            reports: _,
            notes: _,
            waker: _,
        } = self;
    }
}

impl Desk {
    /// For so many targets, each of which has one lookup at once. The waker wakes the loop.
    pub(crate) fn new(alloc: Global, targets: usize, waker: Waker) -> Result<Desk, AllocError> {
        Ok(Desk {
            lookups: Mailbox::new(alloc, targets)?,
            found: Mailbox::new(alloc, targets)?,
            reports: Mailbox::new(alloc, REPORTS)?,
            notes: Mailbox::new(alloc, NOTES)?,
            waker,
        })
    }

    /// Wakes the loop.
    pub(crate) fn wake(&self) {
        let _ = self.waker.wake();
    }

    /// No lookup and no report comes any more. Lookups that wait are left out, and reports are told first.
    pub(crate) fn close<R: Wait>(&self, rt: &R) {
        self.lookups.clear(rt);
        self.lookups.close(rt);
        self.reports.close(rt);
    }
}
