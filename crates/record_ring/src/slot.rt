use crate::packing::{halves, joined};
use crate::record::{Missing, Record};
use crate::word::Word;

/// Room for one record, which threads share. All parts that are read of a lap were put in that lap.
///
/// The number of laps goes round at 2^32, so laps that meet in a slot have to be less than 2^31 apart: of two such the later one is known.
/// Nothing was put into a new slot but, as it were, zeros in lap 2^32 − 1, the one before the first.
///
/// Contracts see nothing of it.
#[derive(Drop)]
pub struct Slot {
    low: Word,
    high: Word,
    session: Word,
    sort: Word,
}

impl Slot {
    /// A slot in which nothing was put.
    pub fn new() -> Slot {
        Slot {
            low: Word::new(),
            high: Word::new(),
            session: Word::new(),
            sort: Word::new(),
        }
    }

    /// Its words, in the order in which a writer puts the parts of a record in.
    pub fn words(&self) -> [&Word; 4] {
        [&self.low, &self.high, &self.session, &self.sort]
    }

    /// Puts a record here, unless a later lap, or the same, has one here.
    pub fn put(&self, lap: u32, record: Record) {
        let (high, low) = halves(record.micros);
        self.low.put(lap, low);
        self.high.put(lap, high);
        self.session.put(lap, record.session);
        self.sort.put(lap, record.sort);
    }

    /// The record that was put here in this lap.
    pub fn record(&self, lap: u32) -> Result<Record, Missing> {
        let low = self.low.part(lap)?;
        let high = self.high.part(lap)?;
        let session = self.session.part(lap)?;
        let sort = self.sort.part(lap)?;
        Ok(Record {
            micros: joined(high, low),
            session,
            sort,
        })
    }
}
