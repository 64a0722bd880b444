//! What comes of an event that is in time.

ghost use Rattle.std.specs.Prelude.{◌≡◌, ◌<◌};
ghost use Rattle.observing.specs.Stage.{Dials, OnRefused, OnResolved, OnWaited, on_closed, on_connected};

use crate::kind::Kind;
use crate::stage::{Dial, Stage, Step};
use crate::verdict::{Verdict, Why};

/// The name of the host has so many addresses.
pub(crate) fn on_resolved(stage: Stage, ends: u64, at: u64, count: usize) -> Step
    requires { at < ends }
    ensures { OnResolved stage ends at count result }
{
    match stage {
        Stage::Naming => dial(ends, at, 0, count, Why::NoAddress),
        Stage::Dialling(_) | Stage::Reading | Stage::Over => Step::Stays,
    }
}

/// Goes on to the address of this place, if there are so many.
fn dial(ends: u64, at: u64, place: usize, count: usize, otherwise: Why) -> Step
    requires { at < ends }
    ensures { Dials ends at place count otherwise result }
{
    if place >= count {
        return Step::Reports(Verdict::Fail(otherwise));
    }
    let share = (ends - at) / (count - place) as u64;
    Step::Goes(Stage::Dialling(Dial {
        place,
        count,
        until: at + share,
    }))
}

/// The connection stands.
pub(crate) fn on_connected(stage: Stage, kind: Kind) -> Step
    ensures { result ≡ on_connected stage kind }
{
    match stage {
        Stage::Dialling(_) => match kind {
            Kind::Tcp => Step::Reports(Verdict::Pass),
            Kind::Http | Kind::GrpcWeb => Step::Goes(Stage::Reading),
        },
        Stage::Naming | Stage::Reading | Stage::Over => Step::Stays,
    }
}

/// The connection could not be made.
pub(crate) fn on_refused(stage: Stage, ends: u64, at: u64) -> Step
    requires { at < ends }
    ensures { OnRefused stage ends at result }
{
    match stage {
        Stage::Dialling(tried) => dial(ends, at, tried.place + 1, tried.count, Why::Refused),
        Stage::Naming | Stage::Reading | Stage::Over => Step::Stays,
    }
}

/// Time passed.
pub(crate) fn on_waited(stage: Stage, ends: u64, at: u64) -> Step
    requires { at < ends }
    ensures { OnWaited stage ends at result }
{
    match stage {
        Stage::Dialling(tried) => {
            if tried.until <= at {
                on_refused(stage, ends, at)
            } else {
                Step::Stays
            }
        }
        Stage::Naming | Stage::Reading | Stage::Over => Step::Stays,
    }
}

/// Nothing more comes.
pub(crate) fn on_closed(stage: Stage) -> Step
    ensures { result ≡ on_closed stage }
{
    match stage {
        Stage::Reading => Step::Reports(Verdict::Fail(Why::Closed)),
        Stage::Naming | Stage::Dialling(_) | Stage::Over => Step::Stays,
    }
}
