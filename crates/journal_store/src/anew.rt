ghost use Rattle.std.specs.Prelude.{◌≡◌, ℕ, List, None, IfOk, OnOk};
ghost use Rattle.record_log.specs.Log.{IsReady, blocks};
ghost use Rattle.journal_store.specs.Turned.{AreTurned};

use crate::medium::Medium;
use crate::text::{Text, turn};
use chronicle::StoreFault;
use record_log::{Device, OpenError, RecordLog, begins};
use std::alloc::Global;

/// Opens a file anew that has this text or the other, which is turned to where it has that one.
pub(crate) fn open_either<M: Medium>(
    alloc: Global,
    medium: &mut M,
    text: &mut Text,
    other: &mut Option<Text>,
) -> Result<RecordLog<M::Device>, StoreFault>
    ensures turned { AreTurned text.old other.old text.new other.new }
    ensures ready { IfOk result (λ log. (records : List (List ℕ))
        → text.new.written.items ≡ blocks records
        → IsReady M.Device.contents M.Device.may_leave log records) }
{
    let fault = match open_anew(alloc, medium, &text.written) {
        Ok(log) => return Ok(log),
        Err(fault) => fault,
    };
    if !turn(text, other) {
        return Err(fault);
    }
    open_anew(alloc, medium, &text.written)
}

/// Opens a file anew of which these blocks were acknowledged. A file that has others may be somebody else's, and is not held on to.
fn open_anew<M: Medium>(
    alloc: Global,
    medium: &mut M,
    written: &[u8],
) -> Result<RecordLog<M::Device>, StoreFault>
    ensures { IfOk result (λ log. (records : List (List ℕ)) → written.now ≡ blocks records
        → IsReady M.Device.contents M.Device.may_leave log records) }
{
    let mut log = RecordLog::new(medium.reopen()?);
    match go_back(alloc, &mut log, written) {
        Ok(()) => {
            medium.release();
            Ok(log)
        }
        Err(fault) => Err(medium.fault(&log.device).unwrap_or(fault)),
    }
}

/// Opens a log of which these blocks were acknowledged. What a batch left behind them that failed is taken back; where there is anything
/// else, it is not opened.
fn go_back<D: Device>(
    alloc: Global,
    log: &mut RecordLog<D>,
    written: &[u8],
) -> Result<(), StoreFault>
    ensures { OnOk result ((records : List (List ℕ)) → written.now ≡ blocks records
        → IsReady D.contents D.may_leave log.new records) }
{
    let found = match log.open(alloc) {
        Ok(found) => found,
        Err(OpenError::Damaged(_)) => return Err(StoreFault::Moved),
        Err(OpenError::Memory | OpenError::Failed) => return Err(StoreFault::Unknown),
    };
    if !begins(&found, written) {
        return Err(StoreFault::Moved);
    }
    match log.take_back(written.len()) {
        Ok(()) => Ok(()),
        Err(_) => Err(StoreFault::Unknown),
    }
}

/// Gives the device of a log that failed, if there is one, to the medium, which holds on to its file.
pub(crate) fn hold_failed<M: Medium>(medium: &mut M, log: &mut Option<RecordLog<M::Device>>)
    ensures { log.new ≡ None }
{
    if let Some(failed) = log.take() {
        medium.hold(failed.device);
    }
}
