use crate::moment::Moment;
use crate::pen::Pen;
use crate::words::{reason_of, status_of, who_of};
use chronicle::{Chronicle, Newest, Refused, TimeText};
use control::call_text;
use desk_core::{Catalogue, Change, Entry, Slot};
use log_lines::{Event, Line, Minutely, Status, Who};
use watchdog::Expectations;

/// How many refusals are told at a time.
const REFUSALS: u32 = 1_024;

/// What lines are written from.
#[derive(Clone, Copy)]
pub(crate) struct Page<'a> {
    pub(crate) catalogue: &'a Catalogue,
    pub(crate) expectations: &'a Expectations,
    /// When it is written.
    pub(crate) moment: Moment,
}

impl Page<'_> {
    fn chronicle(&self) -> &Chronicle {
        self.expectations.chronicle()
    }

    /// The name at a slot.
    fn name(&self, slot: Slot) -> &str {
        match self.catalogue.name(slot) {
            Some(name) => name,
            None => "",
        }
    }

    /// When the entry at a place was made and who asked for it, as far as it is known.
    fn noted(&self, place: u32) -> (TimeText, Who) {
        match self.chronicle().noted(place) {
            Some(note) => (note.time, who_of(note.who)),
            None => (self.moment.time(), Who::Forgotten),
        }
    }

    /// Whether it is known who asked for the entry at a place.
    pub(crate) fn is_noted(&self, place: u32) -> bool {
        self.chronicle().noted(place).is_some()
    }

    /// Has it kept when the entry at this place was made, which is the newest of its sort for a service.
    pub(crate) fn keep(&self, slot: Slot, newest: Newest, place: u32) {
        self.chronicle().keep(slot.number(), newest, place);
    }

    /// Tells that an entry changed the status of a service.
    pub(crate) fn tell_change(&self, pen: &mut Pen, entry: &Entry, old: Status, change: &Change) {
        if !pen.may_write(self.moment) {
            return;
        }
        let Ok(call) = call_text(pen.alloc(), self.catalogue, &entry.call) else {
            pen.lose();
            return;
        };
        let (time, who) = self.noted(change.at);
        let event = Event::Changed {
            name: self.name(change.slot),
            old,
            new: status_of(change.status),
            place: change.at,
            who,
            call: &call,
        };
        let time = time.as_str();
        pen.push(Line { time, event });
    }

    /// Tells that a service was not heard from, for which so many fails were made, the last of them at this place.
    pub(crate) fn tell_expiry(&self, pen: &mut Pen, slot: Slot, fails: u32, place: u32) {
        if !pen.may_write(self.moment) {
            return;
        }
        let (time, _) = self.noted(place);
        let event = Event::Expired {
            name: self.name(slot),
            seconds: self.expectations.seconds(slot),
            fails,
            place,
        };
        let time = time.as_str();
        pen.push(Line { time, event });
    }

    /// Tells of the refusals from this cursor on, which moves behind them; of the server's own once a minute.
    pub(crate) fn tell_refusals(&self, pen: &mut Pen, cursor: &mut u64, own: &mut Minutely) {
        for _ in 0..REFUSALS {
            let Some(refused) = self.chronicle().refused(cursor) else {
                return;
            };
            self.tell_refusal(pen, refused, own);
        }
    }

    /// Tells that a change was refused, and how many refusals before it cannot be told any more.
    fn tell_refusal(&self, pen: &mut Pen, refused: Refused, own: &mut Minutely) {
        if refused.lost > 0 {
            pen.write(self.moment, Event::Lost(refused.lost));
        }
        let who = who_of(refused.who);
        if who == Who::Expiry && !own.may_tell(self.moment.millis) {
            return;
        }
        let moment = Moment {
            micros: refused.micros,
            ..self.moment
        };
        let event = Event::Refused {
            who,
            reason: reason_of(refused.reason),
        };
        pen.write(moment, event);
    }
}
