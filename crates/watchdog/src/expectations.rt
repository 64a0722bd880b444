use crate::wish::{MAX_SECONDS, Wish};
use chronicle::Chronicle;
use desk_core::Slot;
use std::alloc::{AllocError, Global};
use std::sync::atomic::{AtomicU64, Ordering};

/// What is expected of services, which sessions say and the watchdog takes over, and how often it has brought one down; and the
/// chronicle in which both take down when they make entries.
///
/// Contracts see nothing of it: threads share it.
pub struct Expectations {
    wishes: Vec<AtomicU64>,
    /// For each slot how often it has to be heard, in seconds, by the watchdog's newest round; 0 where it is not expected.
    periods: Vec<AtomicU64>,
    expired: AtomicU64,
    chronicle: Chronicle,
}

impl Drop for Expectations {
    fn drop(self) {
        let Expectations {
            wishes: _,
            periods: _,
            expired: _,
            chronicle: _,
        } = self;
    }
}

impl Expectations {
    /// Nothing is expected yet.
    pub fn new(alloc: Global) -> Result<Expectations, AllocError> {
        Ok(Expectations {
            wishes: zeros(alloc)?,
            periods: zeros(alloc)?,
            expired: AtomicU64::new(0),
            chronicle: Chronicle::new(alloc)?,
        })
    }

    /// Where it is taken down when entries are made, and by whom.
    pub fn chronicle(&self) -> &Chronicle {
        &self.chronicle
    }

    /// At least every how many seconds the service has to be heard, if it is expected to be: what was said of it since the watchdog's
    /// newest round, or what that had.
    pub fn seconds(&self, slot: Slot) -> Option<u32> {
        let index = usize::from(slot.number());
        let said = self.wishes.get(index)?.load(Ordering::SeqCst);
        let seconds = match Wish::of_word(said) {
            Some(wish) => wish.seconds,
            None => {
                let period = self.periods.get(index)?.load(Ordering::SeqCst);
                u32::try_from(period).unwrap_or(u32::MAX)
            }
        };
        if seconds == 0 { None } else { Some(seconds) }
    }

    /// The watchdog expects the service at least every so many seconds now, or no more.
    pub(crate) fn follow(&self, slot: Slot, seconds: Option<u32>) {
        if let Some(word) = self.periods.get(usize::from(slot.number())) {
            word.store(u64::from(seconds.unwrap_or(0)), Ordering::SeqCst);
        }
    }

    /// From now on this is expected of the service, instead of what was expected before.
    pub fn expect(&self, slot: Slot, wish: Wish) {
        let seconds = wish.seconds.min(MAX_SECONDS);
        let wish = Wish { seconds, ..wish };
        if let Some(word) = self.wishes.get(usize::from(slot.number())) {
            word.store(wish.word(), Ordering::SeqCst);
        }
    }

    /// What was said newest of the service since this was asked last, unless something newer is said just then. Whoever asks meanwhile how
    /// often the service has to be heard is told that, and not what was expected before.
    pub(crate) fn take(&self, slot: Slot) -> Option<Wish> {
        let word = self.wishes.get(usize::from(slot.number()))?;
        let said = word.load(Ordering::SeqCst);
        let wish = Wish::of_word(said)?;
        self.follow(slot, Some(wish.seconds));
        match word.compare_exchange(said, 0, Ordering::SeqCst, Ordering::SeqCst) {
            Ok(_) => Some(wish),
            Err(_) => None,
        }
    }

    /// A service was brought down since nothing was heard of it.
    pub(crate) fn count(&self) {
        self.expired.fetch_add(1, Ordering::SeqCst);
    }

    /// How often that was.
    pub fn expired(&self) -> u64 {
        self.expired.load(Ordering::SeqCst)
    }
}

/// A zero for each slot.
fn zeros(alloc: Global) -> Result<Vec<AtomicU64>, AllocError> {
    let mut words = Vec::with_capacity(alloc, usize::from(Slot::COUNT))?;
    for _ in 0..Slot::COUNT {
        words.push(AtomicU64::new(0))?;
    }
    Ok(words)
}
