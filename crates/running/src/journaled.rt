//! A hall that goes on from the history in a file.

ghost use Rattle.std.specs.Prelude.{◌≡◌, ◌≤◌, IfOk, IfErr};
ghost use Rattle.running.specs.Journaled.{IsCatalogueOf, IsJournaled, IsSetupOf};
ghost use Rattle.running.specs.Run.{EndsSetUp};

use crate::registered::warn_of_entries;
use crate::run::set_up;
use crate::run_failure::{RunFailure, journal_failure, script_failure};
use chronicle::wall_micros;
use desk_core::{Catalogue, Entry, KeepAll};
use durable::{Attendance, Journal};
use journal_store::FileStore;
use probe_core::{Maker, Probe};
use script::{Mode, read_script};
use server::SetUpHall;
use std::alloc::Global;
use std::fs::File;
use std::rt::Files;
use std::sync::{Arc, Wait};
use std::time::Clock;
use watchdog::Expectations;

/// A hall whose registry is what the history in a file makes of it, with so many seats, and which stores each change there. Where the file
/// has no entry, the script's setup is put into it first, as one.
pub fn set_up_over<'r, 'a, R, P: Probe, M: Maker<P>>(
    rt: &'r R,
    alloc: Global,
    maker: &M,
    bytes: &[u8],
    seats: u16,
    path: &'a str,
    expectations: &Arc<Expectations>,
) -> Result<SetUpHall<P, FileStore<'r, R, Attendance>>, RunFailure<'a>>
where
    R: Files<File = File> + AllocGlobal + Clock + Wait + Eprint,
    requires some { 1 ≤ seats }
    requires not_too_many { seats ≤ 1024 }
    ensures ok { IfOk result (IsJournaled bytes.now seats) }
{
    let (catalogue, max) = catalogue_in(alloc, bytes)?;
    let micros = wall_micros(rt);
    let attendance = Attendance::new(micros, expectations.clone()?);
    let journal = journal_at(rt, alloc, maker, bytes, path, attendance, catalogue)?;
    journal.tell(expectations.chronicle(), micros);
    warn_of_entries(rt, alloc, bytes, journal.entries())?;
    match journal.into_hall(rt, alloc, max, maker, seats) {
        Ok(made) => Ok(made),
        Err(fault) => Err(journal_failure(path, fault)),
    }
}

/// The services of a script, and how many entries it asks for at most.
pub(crate) fn catalogue_in<'a>(
    alloc: Global,
    bytes: &[u8],
) -> Result<(Catalogue, u32), RunFailure<'a>>
    ensures { IfOk result (λ parts. IsCatalogueOf bytes.now parts.0 parts.1) }
{
    match read_script(alloc, bytes, Mode::Run) {
        Ok(script) => {
            let (catalogue, max, ..) = script.into_parts();
            Ok((catalogue, max))
        }
        Err(fault) => Err(script_failure(alloc, bytes, fault)),
    }
}

/// The journal in the file at a path. Where the file has no entry, the script's setup is put into it.
fn journal_at<'r, 'a, R, P: Probe, M: Maker<P>>(
    rt: &'r R,
    alloc: Global,
    maker: &M,
    bytes: &[u8],
    path: &'a str,
    attendance: Attendance,
    catalogue: Catalogue,
) -> Result<Journal<'r, R, Attendance>, RunFailure<'a>>
where
    R: Files<File = File> + AllocGlobal + Wait,
    ensures names { IfOk result (λ journal. journal.names ≡ catalogue) }
{
    let mut journal = match Journal::open(rt, path, attendance, catalogue) {
        Ok(journal) => journal,
        Err(fault) => return Err(journal_failure(path, fault)),
    };
    if journal.entries().is_empty() {
        let entries = setup_entries(rt, alloc, maker, bytes)?;
        if let Err(fault) = journal.begin(entries) {
            return Err(journal_failure(path, fault));
        }
    }
    Ok(journal)
}

/// The entries that the script's setup comes to in a registry of its own.
fn setup_entries<'a, R: Wait, P: Probe, M: Maker<P>>(
    rt: &R,
    alloc: Global,
    maker: &M,
    bytes: &[u8],
) -> Result<Vec<Entry>, RunFailure<'a>>
    ensures entries { IfOk result (λ entries. IsSetupOf bytes.now entries.items) }
    ensures failure { IfErr result (EndsSetUp bytes.now) }
{
    let made = set_up::<R, P, KeepAll, M>(rt, alloc, maker, bytes, 1)?;
    let (_, entries) = made.into_entries(alloc)?;
    Ok(entries)
}
