//! Probes that slow a list of orders down until others have begun.

use probe_core::{Event, Manual, Probe, Rule};
use std::sync::atomic::{AtomicU32, Ordering};
use std::thread;
use std::time::{Clock, Duration};

/// How many events wait while the others have not begun.
const PAUSES: u32 = 9;

/// For how many milliseconds the first event waits where the others need a turn of the hall for their beginning, which no event
/// leaves them. Each later one waits twice as long, and all together for 25 seconds.
pub(crate) const PAUSE: u64 = 50;

/// How many events were heard on this side, and on how many of them the others had not begun.
#[derive(Drop)]
pub(crate) struct Heard {
    pub(crate) events: AtomicU32,
    pub(crate) alone: AtomicU32,
}

impl Heard {
    pub(crate) fn new() -> Heard {
        Heard {
            events: AtomicU32::new(0),
            alone: AtomicU32::new(0),
        }
    }

    /// On how many of them the others had not begun.
    pub(crate) fn alone(&self) -> u32 {
        self.alone.load(Ordering::SeqCst)
    }
}

/// A `Manual` that counts what it hears, and hears it slowly until the others have begun.
#[derive(Drop)]
pub(crate) struct Paced<'a, C> {
    manual: Manual,
    clock: &'a C,
    heard: &'a Heard,
    one: &'a AtomicU32,
    other: &'a AtomicU32,
    awaited: u32,
    pause: u64,
}

impl<'a, C> Paced<'a, C> {
    /// The others have begun once both count so many. The first event waits for so many milliseconds at most.
    pub(crate) fn new(
        clock: &'a C,
        heard: &'a Heard,
        one: &'a AtomicU32,
        other: &'a AtomicU32,
        awaited: u32,
        pause: u64,
    ) -> Paced<'a, C> {
        Paced {
            manual: Manual::new(),
            clock,
            heard,
            one,
            other,
            awaited,
            pause,
        }
    }

    fn is_alone(&self) -> bool {
        self.one.load(Ordering::SeqCst) < self.awaited
            || self.other.load(Ordering::SeqCst) < self.awaited
    }
}

impl<C: Clock> Probe for Paced<'_, C> {
    ghost rule = { λ probe. ⟦<probe_core::Manual as probe_core::Probe>⟧.rule probe.manual };

    ghost memory = { λ probe. ⟦<probe_core::Manual as probe_core::Probe>⟧.memory probe.manual };

    fn rule(&self) -> Rule {
        self.manual.rule()
    }

    fn is_up(&self) -> bool {
        self.manual.is_up()
    }

    fn is_unknown(&self) -> bool {
        self.manual.is_unknown()
    }

    fn note(&mut self, event: Event) -> bool {
        self.heard.events.fetch_add(1, Ordering::SeqCst);
        if self.is_alone() {
            let pauses = self.heard.alone.fetch_add(1, Ordering::SeqCst);
            let most = if pauses < PAUSES {
                self.pause << pauses
            } else {
                0
            };
            for _ in 0..most {
                if !self.is_alone() {
                    break;
                }
                thread::sleep(self.clock, Duration::from_millis(1));
            }
        }
        self.manual.note(event)
    }

    fn reset(&mut self) {
        self.manual.reset()
    }
}
