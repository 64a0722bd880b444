ghost use Rattle.std.specs.Prelude.{◌↔◌, ◌≤◌, ◌<◌, IsTrue};

use crate::held::Held;
use crate::moment::Moment;
use crate::pen::Pen;
use log_lines::{Event, Limit, Minutely};

/// The bounds of a server, each of which is told while it is met, once a minute at most.
#[derive(Drop)]
pub(crate) struct Bounds {
    room: Held,
    /// How many entries there may be.
    most: u32,
    /// How many entries there were when they were looked at.
    looked_at: Option<u32>,
    connections: Minutely,
    watches: Minutely,
    sessions: Minutely,
    most_entries: Minutely,
    all_entries: Minutely,
}

/// Whether as much is held as there is room for. Where there is no room, nothing is held.
fn is_met(held: u32, room: u32) -> bool
    ensures { IsTrue result ↔ ((room ≤ held) × (0 < held)) }
{
    held >= room && held > 0
}

impl Bounds {
    /// Nothing was told yet.
    pub(crate) fn new(room: Held, most: u32) -> Bounds {
        Bounds {
            room,
            most,
            looked_at: None,
            connections: Minutely::new(),
            watches: Minutely::new(),
            sessions: Minutely::new(),
            most_entries: Minutely::new(),
            all_entries: Minutely::new(),
        }
    }

    /// Tells which bounds are met by what is held.
    pub(crate) fn tell_held(&mut self, pen: &mut Pen, moment: Moment, held: Held) {
        let Held {
            connections,
            watches,
            sessions,
        } = self.room;
        if is_met(held.connections, connections) {
            let limit = Limit::Connections(connections);
            tell(pen, moment, &mut self.connections, limit);
        }
        if is_met(held.watches, watches) {
            let limit = Limit::Watches(watches);
            tell(pen, moment, &mut self.watches, limit);
        }
        if is_met(held.sessions, sessions) {
            let limit = Limit::Sessions(sessions);
            tell(pen, moment, &mut self.sessions, limit);
        }
    }

    /// Tells that there are nearly as many entries as there may be, or as many, where that is new.
    pub(crate) fn tell_entries(&mut self, pen: &mut Pen, moment: Moment, entries: u32) {
        if self.looked_at == Some(entries) {
            return;
        }
        self.looked_at = Some(entries);
        let most = self.most;
        if entries >= most {
            let limit = Limit::AllEntries(most);
            tell(pen, moment, &mut self.all_entries, limit);
        } else if entries >= most - most / 10 {
            let limit = Limit::MostEntries(most);
            tell(pen, moment, &mut self.most_entries, limit);
        }
    }
}

/// Tells that a bound is met, unless that was told in the last minute.
fn tell(pen: &mut Pen, moment: Moment, told: &mut Minutely, limit: Limit) {
    if told.may_tell(moment.millis) {
        pen.write(moment, Event::Limited(limit));
    }
}
