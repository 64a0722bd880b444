ghost use Rattle.std.specs.Prelude.{◌≡◌, ◌+◌, ◌*◌, ◌^◌, ◌<◌};

use record_ring::{Record, Slot};
use std::alloc::{AllocError, Global};

/// How many services there can be.
const SERVICES: u32 = 16;

/// How many places there are in a quarter of all.
const QUARTER: u32 = 0x4000_0000;

/// A slot for each quarter of the places: the laps of a slot are less than half a round apart, however far apart the entries are.
type Quarters = [Slot; 4];

/// What an entry is the newest of, for a service.
#[derive(Clone, Copy)]
pub enum Newest {
    /// Of those that changed its status.
    Change,
    /// Of its reports.
    Report,
}

/// The records of the entries that are the newest of their sort for a service, which threads share.
///
/// Contracts see nothing of it.
#[derive(Drop)]
pub(crate) struct NewestRecords {
    changes: Vec<Quarters>,
    reports: Vec<Quarters>,
}

impl NewestRecords {
    pub(crate) fn new(alloc: Global) -> Result<NewestRecords, AllocError> {
        Ok(NewestRecords {
            changes: slots(alloc)?,
            reports: slots(alloc)?,
        })
    }

    /// Keeps the record of the entry at a place for the service of this number, unless a later one is kept.
    pub(crate) fn keep(&self, service: u8, newest: Newest, place: u32, record: Record) {
        let services = match newest {
            Newest::Change => &self.changes,
            Newest::Report => &self.reports,
        };
        let (quarter, lap) = in_quarters(place);
        if let Some(quarters) = services.get(usize::from(service)) {
            quarters[quarter].put(lap, record);
        }
    }

    /// The record of the entry at a place, if it is kept for some service.
    pub(crate) fn record(&self, place: u32) -> Option<Record> {
        match record_in(&self.changes, place) {
            Some(record) => Some(record),
            None => record_in(&self.reports, place),
        }
    }
}

/// The slots of each service.
fn slots(alloc: Global) -> Result<Vec<Quarters>, AllocError> {
    let mut services = Vec::with_capacity(alloc, SERVICES as usize)?;
    for _ in 0..SERVICES {
        services.push([Slot::new(), Slot::new(), Slot::new(), Slot::new()])?;
    }
    Ok(services)
}

/// The quarter that a place lies in, and how far behind its first place, which is its lap there.
fn in_quarters(place: u32) -> (usize, u32)
    ensures place { place ≡ result.0 * 2 ^ 30 + result.1 }
    ensures quarter { result.0 < 4 }
    ensures lap { result.1 < 2 ^ 30 }
{
    ((place / QUARTER) as usize, place % QUARTER)
}

fn record_in(services: &[Quarters], place: u32) -> Option<Record> {
    let (quarter, lap) = in_quarters(place);
    for quarters in services {
        if let Ok(record) = quarters[quarter].record(lap) {
            return Some(record);
        }
    }
    None
}
