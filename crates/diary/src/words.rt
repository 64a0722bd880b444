//! What lines call the things of a registry.

ghost use Rattle.std.specs.Prelude.{◌≡◌};

use desk_core::Refusal;
use health_wire::Serving;
use log_lines::{Status, Who};

/// The status that watchers are shown.
pub(crate) fn status_of(shown: Serving) -> Status {
    match shown {
        Serving::Unknown => Status::Unknown,
        Serving::Serving => Status::Serving,
        Serving::NotServing => Status::NotServing,
        Serving::ServiceUnknown => Status::Absent,
    }
}

/// Who asked for an entry.
pub(crate) fn who_of(who: chronicle::Who) -> Who {
    match who {
        chronicle::Who::Setup => Who::Setup,
        chronicle::Who::Session(number) => Who::Session(number),
        chronicle::Who::Expiry => Who::Expiry,
    }
}

/// Why a change was refused, by the number that it was taken down with.
pub(crate) fn reason_of(number: u8) -> &'static str {
    const BAD_RULE: u8 = Refusal::BadRule as u8;
    const FULL: u8 = Refusal::Full as u8;
    const NO_MEMORY: u8 = Refusal::NoMemory as u8;
    const NOT_LISTED: u8 = Refusal::NotListed as u8;
    const NOT_STORED: u8 = Refusal::NotStored as u8;
    match number {
        BAD_RULE => "bad rule",
        FULL => "full",
        NO_MEMORY => "no memory",
        NOT_LISTED => "not listed",
        NOT_STORED => "not stored",
        _ => "for no known reason",
    }
}
