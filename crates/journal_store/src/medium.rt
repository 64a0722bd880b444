use chronicle::StoreFault;
use record_log::{Device, RecordLog};

/// Where a journal's file is, to be opened again after its device failed, and to be written anew. Nobody else has it meanwhile. No clause
/// says what is found there: it is compared with what was acknowledged.
pub trait Medium: Drop {
    ghost use Rattle.std.specs.Prelude.{◌≡◌, ◌++◌, ◌∷◌, [], ℕ, List, IfOk};
    ghost use Rattle.record_log.specs.Log.{IsReady, blocks};

    type Device: Device;

    /// The error of the system for which this device failed, if it is known.
    fn fault(&self, device: &Self::Device) -> Option<StoreFault>;

    /// Whether the file of this device is still the one that a restart would find.
    fn is_in_place(&self, device: &Self::Device) -> bool;

    /// Holds on to the file of a device that is not to be used again, until it is released.
    fn hold(&mut self, device: Self::Device);

    /// Opens the file anew. What is held on to is held further, as it may be another file.
    fn reopen(&mut self) -> Result<Self::Device, StoreFault>;

    /// Lets go of what is held on to: the file that was opened anew is the journal's.
    fn release(&mut self);

    /// Puts a file of these blocks, with a closed gate behind them, in the place of a log's, unless that is no longer in its place. A crash
    /// leaves the one or the other. After an `Err` the file is to be opened anew: it may be either, and both are held on to.
    fn replace(
        &mut self,
        old: RecordLog<Self::Device>,
        file: &[u8],
    ) -> Result<RecordLog<Self::Device>, StoreFault>
        requires whole { (records : List (List ℕ)) × (file.now ≡ blocks records ++ 0 ∷ []) }
        ensures ready { (records : List (List ℕ)) → file.now ≡ blocks records ++ 0 ∷ []
            → IfOk result (λ log.
            IsReady Self.Device.contents Self.Device.may_leave log records) };
}
