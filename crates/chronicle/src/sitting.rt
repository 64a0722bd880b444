use record_ring::{Record, halves, joined};
use std::sync::atomic::{AtomicU64, Ordering};

/// The sort of a record of nobody.
const NOBODY: u32 = u32::MAX;

/// The record of the entry that is made next by a seat. The thread that uses the seat puts it here, and reads it.
///
/// Contracts see nothing of it.
#[derive(Drop)]
pub(crate) struct Sitting {
    micros: AtomicU64,
    who: AtomicU64,
}

impl Sitting {
    /// Nobody sits here yet.
    pub(crate) fn new() -> Sitting {
        Sitting {
            micros: AtomicU64::new(0),
            who: AtomicU64::new(joined(NOBODY, 0)),
        }
    }

    pub(crate) fn put(&self, record: Record) {
        self.micros.store(record.micros, Ordering::SeqCst);
        self.who
            .store(joined(record.sort, record.session), Ordering::SeqCst);
    }

    pub(crate) fn record(&self) -> Record {
        let (sort, session) = halves(self.who.load(Ordering::SeqCst));
        Record {
            micros: self.micros.load(Ordering::SeqCst),
            session,
            sort,
        }
    }
}
