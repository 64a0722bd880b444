use chronicle::{StoreFault, Who};
use journal_store::Witness;
use std::sync::Arc;
use watchdog::Expectations;

/// Tells when an entry is made, and who sits at its seat, as it was taken down before; where nobody was, it is the setup's. It takes down
/// whether the journal took the newest change.
#[derive(Drop)]
pub struct Attendance {
    /// When the setup is made, in microseconds since 1970.
    micros: u64,
    expectations: Arc<Expectations>,
}

impl Attendance {
    pub fn new(micros: u64, expectations: Arc<Expectations>) -> Attendance {
        Attendance {
            micros,
            expectations,
        }
    }
}

impl Witness for Attendance {
    fn witness(&self, seat: u16) -> (u64, Who) {
        match self.expectations.chronicle().sitting(seat) {
            Some(sitting) => sitting,
            None => (self.micros, Who::Setup),
        }
    }

    fn stored(&self) {
        self.expectations.chronicle().vitals().stored();
    }

    fn not_stored(&self, fault: StoreFault) {
        self.expectations.chronicle().vitals().not_stored(fault);
    }
}
