//! The command `run --check`: what a run would begin with.

use crate::journaled::catalogue_in;
use crate::listening_lines::print_line;
use crate::registered::{Slots, registered_by_script, registered_by_stored, service_at, warn_of};
use crate::run::{expected_by_script, script_bytes, set_up_expecting};
use crate::run_failure::{RunFailure, journal_failure, script_failure};
use crate::run_options::RunOptions;
use control::Place;
use desk_core::{Catalogue, Slot};
use durable::entries_at;
use probe_core::{Maker, Probe};
use script::{Mode, read_script};
use std::alloc::Global;
use std::fs::File;
use std::rt::Files;
use std::sync::Wait;

/// Prints what a run of these options would serve, and what its journal has, or fails as it would. It binds nothing, locks nothing and
/// writes no file, so a server may have the places and the journal.
pub fn check<'a, R, P: Probe, M: Maker<P>>(
    rt: &R,
    maker: &M,
    options: RunOptions<'a>,
) -> Result<(), RunFailure<'a>>
where
    R: Input + Print + Eprint + AllocGlobal + Files<File = File> + Wait,
{
    let alloc = rt.alloc();
    let bytes = script_bytes(rt, alloc, options.script)?;
    let registered = match options.journal {
        Some(path) => registered_over(rt, alloc, maker, &bytes, path)?,
        None => registered_from(rt, alloc, maker, &bytes)?,
    };
    let (catalogue, _) = catalogue_in(alloc, &bytes)?;
    print_places(rt, alloc, options)?;
    print_services(rt, alloc, &catalogue, registered)?;
    warn_of(rt, &catalogue, registered);
    Ok(())
}

/// Which services a run that begins with the script would serve. What was refused first is the failure.
fn registered_from<'a, R: Wait, P: Probe, M: Maker<P>>(
    rt: &R,
    alloc: Global,
    maker: &M,
    bytes: &[u8],
) -> Result<Slots, RunFailure<'a>> {
    let _ = set_up_expecting(rt, alloc, maker, bytes, 1)?;
    match read_script(alloc, bytes, Mode::Run) {
        Ok(script) => Ok(registered_by_script(&script)),
        Err(fault) => Err(script_failure(alloc, bytes, fault)),
    }
}

/// Prints where a run would listen.
fn print_places<'a, R: Print>(
    rt: &R,
    alloc: Global,
    options: RunOptions<'a>,
) -> Result<(), RunFailure<'a>> {
    let listen = Place::Address(options.listen);
    print_place(rt, alloc, "listen", Some(listen))?;
    if let Some(address) = options.plain {
        print_place(rt, alloc, "plain", Some(Place::Address(address)))?;
    }
    print_place(rt, alloc, "control", options.control)?;
    print_place(rt, alloc, "report", options.report)
}

fn print_place<'a, R: Print>(
    rt: &R,
    alloc: Global,
    word: &str,
    place: Option<Place<'a>>,
) -> Result<(), RunFailure<'a>> {
    match place {
        Some(place) => print_line(rt, &format!(in alloc; "{word} {place}")?),
        None => Ok(()),
    }
}

/// Prints which services there would be.
fn print_services<'a, R: Print>(
    rt: &R,
    alloc: Global,
    catalogue: &Catalogue,
    registered: Slots,
) -> Result<(), RunFailure<'a>> {
    for number in 0..Slot::COUNT {
        if let Some((name, true)) = service_at(catalogue, registered, number) {
            print_line(rt, &format!(in alloc; "service {name}")?)?;
        }
    }
    Ok(())
}

/// Prints what the journal at a path has, and tells which services a run that goes on from it would begin with. As in a run, the setup of
/// the script is made where the journal has no entry, and what it expects is looked at before.
fn registered_over<'a, R, P: Probe, M: Maker<P>>(
    rt: &R,
    alloc: Global,
    maker: &M,
    bytes: &[u8],
    path: &'a str,
) -> Result<Slots, RunFailure<'a>>
where
    R: Print + Files<File = File> + AllocGlobal + Wait,
{
    let _ = expected_by_script(rt, alloc, maker, bytes)?;
    let (catalogue, _) = catalogue_in(alloc, bytes)?;
    let stored = match entries_at(rt, path, catalogue, maker) {
        Ok(stored) => stored,
        Err(fault) => return Err(journal_failure(path, fault)),
    };
    if stored.is_empty() {
        let registered = registered_from(rt, alloc, maker, bytes)?;
        print_line(rt, &format!(in alloc; "journal {path}: no entries yet")?)?;
        return Ok(registered);
    }
    let entries = stored.len();
    print_line(rt, &format!(in alloc; "journal {path}: {entries} entries")?)?;
    Ok(registered_by_stored(&stored))
}
