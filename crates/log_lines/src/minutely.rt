ghost use Rattle.std.specs.Prelude.{◌≡◌, None};
ghost use Rattle.log_lines.specs.Minute.{is_minute_over, told_after};

use std::marker::Model;

const MINUTE_MILLIS: u64 = 60_000;

/// Something that is told once a minute at most. Contracts see it as the reading at which it was told last.
#[derive(Clone, Copy)]
pub struct Minutely {
    told: Option<u64>,
}

impl Model for Minutely {
    ghost use Rattle.std.specs.Prelude.{ℕ, Option};

    ghost Value = { Option ℕ };

    ghost view = { λ minutely. minutely.told };

    ghost inverse = { λ told. record { told = told } };
}

impl Minutely {
    /// Something that was not told yet.
    pub fn new() -> Minutely
        ensures { result ≡ None }
    {
        Minutely { told: None }
    }

    /// Whether it may be told at this reading of a monotone clock, which counts as having told it: the first time, and from
    /// 60,000 ms after the last time on.
    pub fn may_tell(&mut self, now_millis: u64) -> bool
        ensures tells { result ≡ is_minute_over self.old now_millis }
        ensures last { self.new ≡ told_after self.old now_millis }
    {
        let tells = match self.told {
            Some(last) => now_millis.saturating_sub(last) >= MINUTE_MILLIS,
            None => true,
        };
        if tells {
            self.told = Some(now_millis);
        }
        tells
    }
}
