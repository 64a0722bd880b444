ghost use Rattle.std.specs.Prelude.{◌≡◌, ◌∷◌, [], option_map};
ghost use Rattle.std.specs.Time.{instant_nanos};
ghost use Rattle.watchdog.specs.Timer.{due_after, is_due};

use crate::met::Met;
use std::marker::Model;
use std::time::{Duration, Instant};
use tail::Whole;

/// How many seconds after a refusal a look tells again.
const RETRY_SECONDS: u32 = 1;

/// The timer of one service. Contracts see it as all that it met, the newest first.
#[derive(Drop)]
pub struct Timer {
    /// At least every how many seconds a report is expected, if one is.
    period: Option<u32>,
    /// When a look next tells.
    due: Option<Instant>,
    past: Whole<Met>,
}

impl Model for Timer {
    ghost use Rattle.std.specs.Prelude.{List, reverse};
    ghost use Rattle.watchdog.specs.declared.met.Met.{Met};
    ghost use Rattle.watchdog.specs.Timer.{HasMet};

    ghost Value = { List Met };

    ghost view = { λ timer. reverse timer.past.items };

    ghost invariant = { λ timer. HasMet timer.period timer.due (reverse timer.past.items) };
}

/// So many seconds later; none where no number is given, or the clock does not go so far.
fn after(now: Instant, seconds: Option<u32>) -> Option<Instant>
    ensures { option_map instant_nanos result ≡ due_after now seconds }
{
    now.checked_add(Duration::from_secs(u64::from(seconds?)))
}

/// Whether there is a moment from which something is due, and it has come. Contracts know the order
/// of readings by their nanoseconds, which the difference tells and `<=` does not.
fn is_due(due: Option<Instant>, now: Instant) -> bool
    ensures { result ≡ is_due (option_map instant_nanos due) (instant_nanos now) }
{
    match due {
        Some(due) => now.checked_duration_since(due).is_some(),
        None => false,
    }
}

impl Timer {
    ghost use Rattle.watchdog.specs.declared.met.Met.TheVariants.{Expected, Heard, Ended, Looked, Refused};
    ghost use Rattle.watchdog.specs.Timer.{due_at, is_overdue, period_of};

    /// A service from which no report is expected yet.
    pub fn new() -> Timer
        ensures { result ≡ [] }
    {
        Timer {
            period: None,
            due: None,
            past: Whole::new(),
        }
    }

    /// From now on a report is expected at least every so many seconds; 0 ends that.
    pub fn expect(&mut self, now: Instant, seconds: u32)
        ensures { self.new ≡ Expected now seconds ∷ self.old }
    {
        self.past = self.past.and(&Met::Expected(now, seconds));
        self.period = if seconds == 0 { None } else { Some(seconds) };
        self.due = after(now, self.period);
    }

    /// A report came.
    pub fn hear(&mut self, now: Instant)
        ensures { self.new ≡ Heard now ∷ self.old }
    {
        self.past = self.past.and(&Met::Heard(now));
        self.due = after(now, self.period);
    }

    /// No report is expected any more.
    pub fn end(&mut self)
        ensures { self.new ≡ Ended ∷ self.old }
    {
        self.past = self.past.and(&Met::Ended);
        self.period = None;
        self.due = None;
    }

    /// Whether the service is to be failed now. A look tells it once, and no look tells it again
    /// before the next report, period or refusal.
    pub fn look(&mut self, now: Instant) -> bool
        ensures told { result ≡ is_overdue self.old (instant_nanos now) }
        ensures past { self.new ≡ Looked now ∷ self.old }
    {
        self.past = self.past.and(&Met::Looked(now));
        let tells = is_due(self.due, now);
        if tells {
            self.due = None;
        }
        tells
    }

    /// What a look led to was refused: a look tells again from a second later on.
    pub fn refuse(&mut self, now: Instant)
        ensures { self.new ≡ Refused now ∷ self.old }
    {
        self.past = self.past.and(&Met::Refused(now));
        self.due = after(now, self.period.map(|_| RETRY_SECONDS));
    }

    /// At least every how many seconds a report is expected, if one is.
    pub fn period(&self) -> Option<u32>
        ensures { result ≡ period_of self.now }
    {
        self.period
    }

    /// From which reading on a look tells, if it does.
    pub fn due(&self) -> Option<Instant>
        ensures { option_map instant_nanos result ≡ due_at self.now }
    {
        self.due
    }
}
