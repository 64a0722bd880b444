use crate::event::Event;
use crate::kind::Kind;
use crate::look::Look;
use crate::stage::Stage;
use crate::terms::Terms;
use crate::timetable::Timetable;
use crate::verdict::Verdict;
use std::alloc::Global;

/// The looks at one target, one after the other. Each has a number.
#[derive(Drop)]
pub struct Lookout {
    kind: Kind,
    limit: u32,
    timetable: Timetable,
    number: u64,
    look: Look,
}

impl Lookout {
    ghost use Rattle.std.specs.Prelude.{◌≡◌, ◌≢◌, ◌≤◌, ◌<◌, ◌+◌, ◌*◌, ◌/◌, ◌^◌, ◌↔◌, IsTrue, IsFalse, None};
    ghost use Rattle.observing.specs.Look.{HasHeard, looks_in, reports_in, stage_of};
    ghost use Rattle.observing.specs.Lookout.{HasBegun, IsIdle, look_of, number_of, timetable_of, until_of};
    ghost use Rattle.observing.specs.Timetable.{next_of, period_of};

    /// That of one of several targets, whose looks are spread over the period.
    pub fn spread(
        alloc: Global,
        kind: Kind,
        terms: Terms,
        place: u32,
        count: u32,
        start: u64,
    ) -> Lookout
        requires within { place < count }
        requires early { start < 2 ^ 63 }
        ensures first { next_of (timetable_of result) ≡ start + terms.period * place / count }
        ensures period { period_of (timetable_of result) ≡ terms.period }
        ensures idle { IsIdle result }
    {
        Lookout {
            kind,
            limit: terms.limit,
            timetable: Timetable::spread(terms.period, place, count, start),
            number: 0,
            look: Look::over(alloc, kind),
        }
    }

    /// The number of the newest look.
    pub fn number(&self) -> u64
        ensures { result ≡ number_of self.now }
    {
        self.number
    }

    /// What the newest look asks for next.
    pub fn stage(&self) -> Stage
        ensures { result ≡ stage_of (look_of self.now) }
    {
        self.look.stage()
    }

    /// The reading at which it wants to be asked for the next look, or to hear that time has passed.
    pub fn until(&self) -> u64
        ensures { result ≡ until_of self.now }
    {
        if self.look.stage().is_over() {
            self.timetable.next()
        } else {
            self.look.until()
        }
    }

    /// Begins a look if one is due and none is in course.
    pub fn begin(&mut self, alloc: Global, now: u64) -> bool
        requires early { now < 2 ^ 63 }
        ensures due { IsTrue result ↔ (IsIdle self.old × (next_of (timetable_of self.old) ≤ now)) }
        ensures begun { IsTrue result → HasBegun self.old now self.new }
        ensures kept { IsFalse result → self.new ≡ self.old }
    {
        if !self.look.stage().is_over() || !self.timetable.is_due(now) {
            return false;
        }
        self.timetable.take(now);
        self.number = self.number.wrapping_add(1);
        self.look = Look::new(alloc, self.kind, now + u64::from(self.limit));
        true
    }

    /// Tells the look of this number what happened at this reading. What an earlier look had asked for counts for nothing.
    pub fn hear(&mut self, number: u64, at: u64, event: Event<'_>) -> Option<Verdict>
        ensures heard { number ≡ number_of self.old
            → HasHeard (look_of self.old) at event.entry result (look_of self.new) }
        ensures stale { number ≢ number_of self.old → (result ≡ None) × (self.new ≡ self.old) }
        ensures once { looks_in (look_of self.old)
            ≡ looks_in (look_of self.new) + reports_in result }
        ensures number { number_of self.new ≡ number_of self.old }
        ensures timetable { timetable_of self.new ≡ timetable_of self.old }
    {
        if number != self.number {
            return None;
        }
        self.look.hear(at, event)
    }
}
