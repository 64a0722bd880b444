ghost use Rattle.std.specs.Prelude.{◌≡◌, ◌+◌, ◌<◌, IfSome, IfNone};

use crate::newest::{Newest, NewestRecords};
use crate::refusals::Refusals;
use crate::refused::Refused;
use crate::session_numbers::SessionNumbers;
use crate::sitting::Sitting;
use crate::time::{TimeText, time_text};
use crate::vitals::Vitals;
use crate::who::{Who, record_of, who_in};
use record_ring::Ring;
use std::alloc::{AllocError, Global};

/// Of how many entries it is kept when they were made.
const KEPT_ENTRIES: u32 = 65_536;

/// How many seats there can be.
const SEATS: u16 = 1_024;

/// What is known of an entry.
#[derive(Clone, Copy, Debug, PartialEq, Eq)]
pub struct Note {
    /// When it was made.
    pub time: TimeText,
    pub who: Who,
}

/// When each of the newest entries of a journal was made and who asked for it, and the newest refusals. Of each service the newest
/// status change and the newest report stay known, however old they are.
///
/// Contracts see nothing of it: threads share it.
pub struct Chronicle {
    entries: Ring,
    newest: NewestRecords,
    refusals: Refusals,
    sessions: SessionNumbers,
    /// Who sits at each seat.
    sitting: Vec<Sitting>,
    vitals: Vitals,
}

impl Drop for Chronicle {
    fn drop(self) {
        let Chronicle {
            entries: _,
            newest: _,
            refusals: _,
            sessions: _,
            sitting: _,
            vitals: _,
        } = self;
    }
}

/// Nobody at each seat.
fn sittings(alloc: Global) -> Result<Vec<Sitting>, AllocError> {
    let mut sittings = Vec::with_capacity(alloc, usize::from(SEATS))?;
    for _ in 0..SEATS {
        sittings.push(Sitting::new())?;
    }
    Ok(sittings)
}

impl Chronicle {
    /// Room for what is known of the newest 65,536 entries and of the newest 1,024 refusals. It takes all memory that it needs.
    pub fn new(alloc: Global) -> Result<Chronicle, AllocError> {
        Ok(Chronicle {
            entries: Ring::new(alloc, KEPT_ENTRIES)?,
            newest: NewestRecords::new(alloc)?,
            refusals: Refusals::new(alloc)?,
            sessions: SessionNumbers::after(0),
            sitting: sittings(alloc)?,
            vitals: Vitals::new(alloc)?,
        })
    }

    /// Takes down that the entry at this place was made at this time, in microseconds since 1970, and who asked for it. It is
    /// told of each entry once, in any order, by several threads.
    pub fn note(&self, place: u32, micros: u64, who: Who) {
        self.entries.put(u64::from(place), record_of(micros, who));
    }

    /// The same of all entries below this place. Only the newest 65,536 are kept.
    pub fn note_all(&self, places: u32, micros: u64, who: Who) {
        for place in places.saturating_sub(KEPT_ENTRIES)..places {
            self.note(place, micros, who);
        }
    }

    /// Keeps what is known of the entry at this place, as the newest of its sort for the service at a slot of this number, until a
    /// later one is.
    pub fn keep(&self, service: u8, newest: Newest, place: u32) {
        if let Ok(record) = self.entries.record(u64::from(place)) {
            self.newest.keep(service, newest, place, record);
            if let Newest::Report = newest {
                self.vitals.report(service, record.micros);
            }
        }
    }

    /// What is to be watched in its server.
    pub fn vitals(&self) -> &Vitals {
        &self.vitals
    }

    /// What is known of the entry at this place: nothing where it was not taken down yet, or is no longer kept.
    pub fn noted(&self, place: u32) -> Option<Note> {
        let record = match self.entries.record(u64::from(place)) {
            Ok(record) => record,
            Err(_) => self.newest.record(place)?,
        };
        Some(Note {
            time: time_text(record.micros),
            who: who_in(record)?,
        })
    }

    /// The number of the next session: 1, 2 and so on. It stays at the greatest number.
    pub fn next_session(&self) -> u32
        ensures { 0 < result }
    {
        self.sessions.take()
    }

    /// Takes down who makes the entries of this seat from now on, and at this time. Only the thread that uses the seat does.
    pub fn sit(&self, seat: u16, micros: u64, who: Who) {
        if let Some(sitting) = self.sitting.get(usize::from(seat)) {
            sitting.put(record_of(micros, who));
        }
    }

    /// When the next entry of this seat is made, and by whom, if that was taken down.
    pub fn sitting(&self, seat: u16) -> Option<(u64, Who)> {
        let record = self.sitting.get(usize::from(seat))?.record();
        Some((record.micros, who_in(record)?))
    }

    /// Takes down that a change was refused, at this time, to whoever asked for it, and for this reason, which the caller numbers.
    /// It never waits: there is room for 1,024 refusals, and the oldest is written over.
    pub fn refuse(&self, micros: u64, who: Who, reason: u8) {
        let place = self.refusals.take_place();
        self.refusals.put(place, micros, who, reason);
        self.vitals.count_refusal(reason);
    }

    /// The next refusal at or after this cursor, which starts at 0 and moves past it. Where one is being taken down, those
    /// after it are told once it is.
    pub fn refused(&self, cursor: &mut u64) -> Option<Refused>
        ensures some { IfSome result (λ told. cursor.new ≡ cursor.old + told.lost + 1) }
        ensures none { IfNone result (cursor.new ≡ cursor.old) }
    {
        self.refusals.refused(cursor)
    }
}
