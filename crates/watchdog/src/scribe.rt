use chronicle::{Chronicle, Who};
use desk_core::{Refusal, Reply};

/// Takes down the entries that a watchdog makes in a round, and the changes that it is refused.
#[derive(Clone, Copy)]
pub(crate) struct Scribe<'a> {
    pub(crate) chronicle: &'a Chronicle,
    /// The wall clock's time of the round, in microseconds since 1970.
    pub(crate) micros: u64,
}

impl Scribe<'_> {
    /// Takes down the entry at this place, if one was made.
    pub(crate) fn note(self, at: Option<u32>) {
        if let Some(place) = at {
            self.chronicle.note(place, self.micros, Who::Expiry);
        }
    }

    /// Takes down that a change was refused, if it was.
    pub(crate) fn note_refusal(self, made: Result<Reply, Refusal>) {
        if let Err(refusal) = made {
            self.chronicle
                .refuse(self.micros, Who::Expiry, refusal as u8);
        }
    }
}
