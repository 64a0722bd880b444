//! Which services of its catalogue a run begins with.

use crate::run_failure::{RunFailure, script_failure};
use desk_core::{Call, Catalogue, Entry, Slot};
use entry_record::Stored;
use script::{Mode, Script, read_script};
use std::alloc::Global;

/// Slots of a catalogue, as a mask: bit i is slot i.
pub(crate) type Slots = u16;

/// Tells standard error which names of a script's catalogue its setup leaves without a service.
pub(crate) fn warn_of_script<'a, R: Eprint>(
    rt: &R,
    alloc: Global,
    bytes: &[u8],
) -> Result<(), RunFailure<'a>> {
    match read_script(alloc, bytes, Mode::Run) {
        Ok(script) => {
            warn_of(rt, script.catalogue(), registered_by_script(&script));
            Ok(())
        }
        Err(fault) => Err(script_failure(alloc, bytes, fault)),
    }
}

/// Tells standard error which of them the entries of a journal leave without one.
pub(crate) fn warn_of_entries<'a, R: Eprint>(
    rt: &R,
    alloc: Global,
    bytes: &[u8],
    entries: &[Entry],
) -> Result<(), RunFailure<'a>> {
    match read_script(alloc, bytes, Mode::Run) {
        Ok(script) => {
            warn_of(rt, script.catalogue(), registered_by_entries(entries));
            Ok(())
        }
        Err(fault) => Err(script_failure(alloc, bytes, fault)),
    }
}

/// Tells standard error which names of a catalogue are not among these.
pub(crate) fn warn_of<R: Eprint>(rt: &R, catalogue: &Catalogue, registered: Slots) {
    for number in 0..Slot::COUNT {
        if let Some((name, false)) = service_at(catalogue, registered, number) {
            let _ = eprintln!(rt; "healthd: {name} is in the catalogue, but not registered");
        }
    }
}

/// The name at a slot, where the empty one is `-`, and whether it is registered.
pub(crate) fn service_at(
    catalogue: &Catalogue,
    registered: Slots,
    number: u8,
) -> Option<(&str, bool)> {
    let slot = Slot::new(number)?;
    let name = match catalogue.name(slot)? {
        "" => "-",
        name => name,
    };
    Some((name, registered & bit(slot) != 0))
}

/// The slots that a script leaves registered.
pub(crate) fn registered_by_script(script: &Script) -> Slots {
    let mut registered = 0;
    for line in script.lines() {
        if let Some(Some(call)) = line.call(script.catalogue()) {
            registered = registered_after(registered, call);
        }
    }
    registered
}

/// The slots that entries leave registered, the oldest of which is the first.
fn registered_by_entries(entries: &[Entry]) -> Slots {
    let mut registered = 0;
    for entry in entries {
        registered = registered_after(registered, entry.call);
    }
    registered
}

/// The slots that the entries of a journal's file leave registered, the oldest of which is the first.
pub(crate) fn registered_by_stored(stored: &[Stored]) -> Slots {
    let mut registered = 0;
    for one in stored {
        registered = registered_after(registered, one.entry.call);
    }
    registered
}

/// The slots that are registered after a change, where these were before it.
fn registered_after(registered: Slots, call: Call) -> Slots {
    match call {
        Call::Register(slot, _) => registered | bit(slot),
        Call::Retire(slot) => registered & !bit(slot),
        Call::Observe(..) | Call::Set(..) | Call::Shutdown | Call::Resume => registered,
    }
}

fn bit(slot: Slot) -> Slots {
    1 << slot.number()
}
