use chronicle::{StoreFault, Who};

/// Tells when an entry is made and who asks for it, and is told whether it was stored.
pub trait Witness: Drop {
    /// The microseconds since 1970, and who is at this seat.
    fn witness(&self, seat: u16) -> (u64, Who);

    /// The newest change is on the disk.
    fn stored(&self);

    /// The newest change was not stored, for this reason.
    fn not_stored(&self, fault: StoreFault);
}
