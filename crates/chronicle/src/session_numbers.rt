ghost use Rattle.std.specs.Prelude.{◌<◌};

use std::sync::atomic::{AtomicU32, Ordering};

/// The numbers of sessions, which threads share: each session has the next one.
#[derive(Drop)]
pub struct SessionNumbers {
    newest: AtomicU32,
}

impl SessionNumbers {
    /// The numbers behind this one.
    pub fn after(newest: u32) -> SessionNumbers {
        SessionNumbers {
            newest: AtomicU32::new(newest),
        }
    }

    /// The number of the next session. It stays at the greatest number.
    pub fn take(&self) -> u32
        ensures { 0 < result }
    {
        let before = self.newest.fetch_update(
            Ordering::SeqCst,
            Ordering::SeqCst,
            |number| number.checked_add(1),
        );
        match before {
            Ok(number) => number.saturating_add(1),
            Err(_) => u32::MAX,
        }
    }
}
