ghost use Rattle.std.specs.Prelude.{◌≡◌, Some};
ghost use Rattle.chronicle.specs.Who.{who_of};

use record_ring::Record;

const SETUP: u32 = 0;

const SESSION: u32 = 1;

const EXPIRY: u32 = 2;

/// Who asked for an entry.
#[derive(Clone, Copy, Debug, PartialEq, Eq)]
pub enum Who {
    /// The script, before the server took calls.
    Setup,
    /// The session of this number.
    Session(u32),
    /// The watchdog, since a report did not come in time.
    Expiry,
}

/// The record of an entry.
pub(crate) fn record_of(micros: u64, who: Who) -> Record
    ensures who { who_of result ≡ Some who }
    ensures micros { result.micros ≡ micros }
{
    let (sort, session) = match who {
        Who::Setup => (SETUP, 0),
        Who::Session(session) => (SESSION, session),
        Who::Expiry => (EXPIRY, 0),
    };
    Record {
        micros,
        session,
        sort,
    }
}

/// Who asked for the entry of a record, if it is one.
pub(crate) fn who_in(kept: Record) -> Option<Who>
    ensures { result ≡ who_of kept }
{
    match kept.sort {
        SETUP => Some(Who::Setup),
        SESSION => Some(Who::Session(kept.session)),
        EXPIRY => Some(Who::Expiry),
        _ => None,
    }
}
