ghost use Rattle.std.specs.Prelude.{◌<◌};

/// When a target is looked at: once in each period, on readings of a clock in milliseconds.
#[derive(Clone, Copy)]
pub struct Timetable {
    next: u64,
    period: u32,
    ghost some: { 0 < period },
}

impl Timetable {
    ghost use Rattle.std.specs.Prelude.{◌≡◌, ◌≤◌, ◌+◌, ◌*◌, ◌/◌, ◌^◌, ◌↔◌, ℕ, IsTrue};
    ghost use Rattle.observing.specs.Timetable.{next_of, period_of};

    /// That of one of several targets, whose looks are spread over the period: the first of them is looked at from the start on.
    pub fn spread(period: u32, place: u32, count: u32, start: u64) -> Timetable
        requires some { 0 < period }
        requires within { place < count }
        requires early { start < 2 ^ 63 }
        ensures first { next_of result ≡ start + period * place / count }
        ensures period { period_of result ≡ period }
    {
        let share = u64::from(period) * u64::from(place) / u64::from(count);
        Timetable {
            next: start + share,
            period,
        }
    }

    /// From which reading on the next look is due.
    pub fn next(&self) -> u64
        ensures { result ≡ next_of self.now }
    {
        self.next
    }

    /// Whether a look is due.
    pub fn is_due(&self, now: u64) -> bool
        ensures { IsTrue result ↔ (next_of self.now ≤ now) }
    {
        self.next <= now
    }

    /// The look that is due is taken. Those that were missed before are left out.
    pub fn take(&mut self, now: u64)
        requires due { next_of self.old ≤ now }
        requires early { now < 2 ^ 63 }
        ensures later { now < next_of self.new }
        ensures soon { next_of self.new ≤ now + period_of self.old }
        ensures same { period_of self.new ≡ period_of self.old }
        ensures spread { (periods : ℕ)
            × (next_of self.new ≡ next_of self.old + periods * period_of self.old) }
    {
        let period = u64::from(self.period);
        let periods = (now - self.next) / period + 1;
        self.next += periods * period;
    }
}
