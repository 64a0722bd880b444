ghost use Rattle.hall.specs.Looking.{HasLooked};
ghost use Rattle.hall.specs.Seats.{IsOf};

use crate::batch::{Batch, board_of};
use crate::bounds::Bounds;
use crate::ending::Ending;
use crate::held::Held;
use crate::moment::Moment;
use crate::page::Page;
use crate::pen::Pen;
use crate::storage::Storage;
use crate::story::{Story, tell_batch};
use desk_core::{Catalogue, Keep, board_entries};
use hall::{Hall, Seat};
use log_lines::{Event, Minutely, Outlet};
use probe_core::Probe;
use std::alloc::{AllocError, Global};
use std::net::SocketAddr;
use std::sync::{Arc, Wait};
use std::time::Clock;
use watchdog::Expectations;

/// In how many times all that a registry keeps is told.
const LAST_TIMES: u32 = 1_024;

/// What a registry has before its server serves.
#[derive(Clone, Copy)]
pub struct Setup {
    /// Where the server serves.
    pub address: SocketAddr,
    /// How many entries the setup made. Nothing is told of them.
    pub entries: u32,
    /// How many entries there may be.
    pub most: u32,
    /// How much it can hold at once.
    pub room: Held,
}

/// Follows a registry, and writes a line for each status change, each service that is not heard from, each change that is
/// refused and each limit that is met: at most 100 lines a second. It never waits for whoever reads them.
///
/// It also has the chronicle keep when each service changed its status last and when it was reported last, which it does where nothing
/// is written too.
///
/// It looks by a seat that is lent to it. Contracts see nothing of what it writes.
pub struct Diary {
    expectations: Arc<Expectations>,
    /// Where the server serves, until that is told.
    address: Option<SocketAddr>,
    /// The cursor of the next refusal.
    refusals: u64,
    /// Of changes that the watchdog was refused, which it asks for again each second.
    own_refusals: Minutely,
    has_more: bool,
    moment: Moment,
    story: Story,
    batch: Batch,
    pen: Pen,
    bounds: Bounds,
    storage: Storage,
}

impl Drop for Diary {
    fn drop(self) {
        let Diary {
            expectations: _,
            address: _,
            refusals: _,
            own_refusals: _,
            has_more: _,
            moment: _,
            story: _,
            batch: _,
            pen: _,
            bounds: _,
            storage: _,
        } = self;
    }
}

impl Diary {
    /// A diary that writes to this outlet, if there is one, of what comes behind the setup. It takes all memory that it needs but that
    /// of single lines.
    pub fn new(
        alloc: Global,
        outlet: Option<Outlet>,
        expectations: Arc<Expectations>,
        setup: Setup,
    ) -> Result<Diary, AllocError> {
        Ok(Diary {
            expectations,
            address: Some(setup.address),
            refusals: 0,
            own_refusals: Minutely::new(),
            has_more: false,
            moment: Moment::START,
            story: Story::new(),
            batch: Batch::new(alloc, setup.entries)?,
            pen: Pen::new(alloc, outlet)?,
            bounds: Bounds::new(setup.room, setup.most),
            storage: Storage::new(),
        })
    }

    /// Whether there may be more to tell at once.
    pub fn has_more(&self) -> bool {
        self.has_more
    }

    /// Tells what has come about since it was called last, of at most 1,024 entries, as far as somebody takes it now, and which
    /// bounds are met by what the server holds. First of all it tells where the server serves.
    pub fn follow<R: Wait, C: Clock, P: Probe, K: Keep>(
        &mut self,
        rt: &R,
        clock: &C,
        hall: &Hall<P, K>,
        seat: &mut Seat<P, K>,
        held: Held,
    )
        requires ours { IsOf hall.now seat.old }
        ensures looked { HasLooked seat.old seat.new }
        ensures ours { IsOf hall.now seat.new }
    {
        self.moment = self.moment.after(clock);
        self.pen.account(self.moment);
        self.tell_beginning(hall.catalogue());
        self.follow_journal(rt, hall, seat);
        self.tell_refusals(hall.catalogue());
        self.tell_storage();
        self.bounds.tell_held(&mut self.pen, self.moment, held);
        self.pen.write_now();
    }

    /// Tells all that has come about, and how the server ended. Of one that has not served it tells no place.
    pub fn end<R: Wait, C: Clock, P: Probe, K: Keep>(
        &mut self,
        rt: &R,
        clock: &C,
        hall: &Hall<P, K>,
        seat: &mut Seat<P, K>,
        held: Held,
        ending: Ending,
    )
        requires ours { IsOf hall.now seat.old }
        ensures looked { HasLooked seat.old seat.new }
        ensures ours { IsOf hall.now seat.new }
    {
        if !ending.has_served() {
            self.address = None;
        }
        for _ in 0..LAST_TIMES {
            self.follow(rt, clock, hall, seat, held);
            if !self.has_more {
                break;
            }
        }
        // What was left out is told now, since no later second begins.
        let moment = Moment {
            millis: u64::MAX,
            ..self.moment
        };
        self.pen.account(moment);
        self.pen.write(moment, Event::Ended(ending.why()));
        self.pen.write_now();
    }

    /// Tells where the server serves, and how many services, once.
    fn tell_beginning(&mut self, catalogue: &Catalogue) {
        if let Some(address) = self.address.take() {
            let event = Event::Serving {
                address,
                services: catalogue.len() as u32,
                entries: self.batch.place(),
            };
            self.pen.write(self.moment, event);
        }
    }

    /// Tells what the journal has that was not told.
    fn follow_journal<R: Wait, P: Probe, K: Keep>(
        &mut self,
        rt: &R,
        hall: &Hall<P, K>,
        seat: &mut Seat<P, K>,
    )
        requires ours { IsOf hall.now seat.old }
        ensures looked { HasLooked seat.old seat.new }
        ensures ours { IsOf hall.now seat.new }
    {
        let entries = board_entries(board_of(hall, seat));
        self.has_more = false;
        if entries > self.batch.place() {
            self.follow_batch(rt, hall, seat);
        }
        self.bounds
            .tell_entries(&mut self.pen, self.moment, entries);
    }

    /// Tells of the next entries.
    fn follow_batch<R: Wait, P: Probe, K: Keep>(
        &mut self,
        rt: &R,
        hall: &Hall<P, K>,
        seat: &mut Seat<P, K>,
    )
        requires ours { IsOf hall.now seat.old }
        ensures looked { HasLooked seat.old seat.new }
        ensures ours { IsOf hall.now seat.new }
    {
        if self.batch.copy(rt, hall, seat) {
            self.tell_batch(hall.catalogue(), seat.number());
        } else {
            self.skip(rt, hall, seat);
        }
    }

    /// Goes on at the end of the journal, and tells how many entries it has not told.
    fn skip<R: Wait, P: Probe, K: Keep>(&mut self, rt: &R, hall: &Hall<P, K>, seat: &mut Seat<P, K>)
        requires ours { IsOf hall.now seat.old }
        ensures looked { HasLooked seat.old seat.new }
        ensures ours { IsOf hall.now seat.new }
    {
        let place = self.batch.place();
        let board = self.batch.skip(rt, hall, seat);
        self.story.skip(board);
        let forgotten = self.batch.place().saturating_sub(place);
        if forgotten > 0 {
            self.pen.write(self.moment, Event::Forgotten(forgotten));
        }
    }

    /// Tells of the entries of the batch, which are those by the watchdog where they are by this seat.
    fn tell_batch(&mut self, catalogue: &Catalogue, own: u16) {
        let Diary {
            expectations,
            has_more,
            moment,
            story,
            batch,
            pen,
            ..
        } = self;
        let page = Page {
            catalogue,
            expectations,
            moment: *moment,
        };
        *has_more = tell_batch(&page, pen, story, batch, own);
    }

    /// Tells whether the journal takes changes, where that is new or lasts.
    fn tell_storage(&mut self) {
        let fault = self.expectations.chronicle().vitals().store_fault();
        self.storage.tell(&mut self.pen, self.moment, fault);
    }

    /// Tells which changes were refused.
    fn tell_refusals(&mut self, catalogue: &Catalogue) {
        let Diary {
            expectations,
            refusals,
            own_refusals,
            moment,
            pen,
            ..
        } = self;
        let page = Page {
            catalogue,
            expectations,
            moment: *moment,
        };
        page.tell_refusals(pen, refusals, own_refusals);
    }
}
