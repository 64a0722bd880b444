use mio::Waker;
use std::alloc::AllocError;
use std::sync::atomic::{AtomicU64, Ordering};

/// What the threads of a server tell each other: that something changed, that they have begun, and that all is to end.
pub struct News {
    changes: AtomicU64,
    ends: AtomicU64,
    /// How many threads that are needed have not begun.
    awaited: AtomicU64,
    /// Whether one of them was missing in the end.
    lacks: AtomicU64,
    wakers: Vec<Waker>,
}

impl Drop for News {
    fn drop(self) {
        let News {
            changes: _,
            ends: _,
            awaited: _,
            lacks: _,
            wakers: _,
        } = self;
    }
}

impl News {
    /// Nothing has changed yet. A waker wakes a loop that waits.
    pub fn new(wakers: Vec<Waker>) -> News {
        News {
            changes: AtomicU64::new(0),
            ends: AtomicU64::new(0),
            awaited: AtomicU64::new(0),
            lacks: AtomicU64::new(0),
            wakers,
        }
    }

    /// The same news, which wake one more.
    pub fn waking(self, waker: Waker) -> Result<News, AllocError> {
        let News {
            changes,
            ends,
            awaited,
            lacks,
            mut wakers,
        } = self;
        wakers.push(waker)?;
        Ok(News {
            changes,
            ends,
            awaited,
            lacks,
            wakers,
        })
    }

    /// Tells that something changed.
    pub fn change(&self) {
        self.changes.fetch_add(1, Ordering::SeqCst);
        self.wake();
    }

    /// Tells that all is to end. Each loop goes through its open Watches once more, and ends them.
    pub fn end(&self) {
        self.ends.store(1, Ordering::SeqCst);
        self.change();
    }

    /// How often something changed.
    pub fn changes(&self) -> u64 {
        self.changes.load(Ordering::SeqCst)
    }

    /// Whether all is to end.
    pub fn has_ended(&self) -> bool {
        self.ends.load(Ordering::SeqCst) != 0
    }

    /// Tells how many threads have to begin before the server serves.
    pub fn await_threads(&self, count: u64) {
        self.awaited.store(count, Ordering::SeqCst);
    }

    /// Tells that one of the threads has begun that are awaited. It does not count once all is to end, since what was for a thread that
    /// could not be made is done behind the rest.
    pub fn begin_thread(&self) {
        if !self.has_ended() {
            self.awaited.fetch_sub(1, Ordering::SeqCst);
        }
    }

    /// Whether some of the threads that are awaited have not begun.
    pub fn awaits_threads(&self) -> bool {
        self.awaited.load(Ordering::SeqCst) != 0
    }

    /// Tells that all is to end, since a thread is missing.
    pub fn end_for_lack_of_threads(&self) {
        self.lacks.store(1, Ordering::SeqCst);
        self.end();
    }

    /// Whether all was to end since a thread was missing.
    pub fn lacks_threads(&self) -> bool {
        self.lacks.load(Ordering::SeqCst) != 0
    }

    /// Wakes all loops.
    pub fn wake(&self) {
        for waker in &self.wakers {
            let _ = waker.wake();
        }
    }
}
