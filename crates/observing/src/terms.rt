ghost use Rattle.std.specs.Prelude.{◌<◌};

/// Every how many milliseconds a target is looked at, and how many a look may take: fewer, so that it is over before the next.
#[derive(Clone, Copy)]
pub struct Terms {
    pub period: u32,
    pub limit: u32,
    ghost below: { limit < period },
}

impl Terms {
    ghost use Rattle.std.specs.Prelude.{◌≡◌, ◌<◌, ◌↔◌, IsSome, IfSome};

    /// None where the limit is not below the period.
    pub fn new(period: u32, limit: u32) -> Option<Terms>
        ensures below { IsSome result ↔ (limit < period) }
        ensures period { IfSome result (λ terms. terms.period ≡ period) }
        ensures limit { IfSome result (λ terms. terms.limit ≡ limit) }
    {
        if limit < period {
            Some(Terms { period, limit })
        } else {
            None
        }
    }
}
