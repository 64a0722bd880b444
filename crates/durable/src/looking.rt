//! What a run would go on from, without a run.

use crate::journal::{are_same, entries_of, fault_in, is_beginning, is_missing, made_again};
use crate::opening_fault::OpeningFault;
use desk_core::{Catalogue, KeepAll};
use entry_record::Stored;
use journal_store::{Preface, read_found};
use probe_core::{Maker, Probe};
use record_log::{ReadError, read_entries};
use server::SetUpHall;
use std::fs::{File, OpenOptions};
use std::io::Read;
use std::path::Path;
use std::rt::Files;
use std::sync::Wait;
use std::{fs, io};

/// The entries that a run of this catalogue would go on from, the oldest first, or the fault with which it would end. The file at the path
/// is neither locked nor written, so a server may have it.
pub fn entries_at<R, P: Probe, M: Maker<P>>(
    rt: &R,
    path: &str,
    catalogue: Catalogue,
    maker: &M,
) -> Result<Vec<Stored>, OpeningFault>
where
    R: Files<File = File> + AllocGlobal + Wait,
{
    let alloc = rt.alloc();
    if is_missing(rt, path)? {
        look_for_folder(rt, path)?;
        return Ok(Vec::new(alloc));
    }
    let found = records_at(rt, path)?;
    let (own, preface) = (
        Preface::new(alloc, &catalogue)?,
        Preface::new(alloc, &catalogue)?,
    );
    let (preface, stored) = match read_found(alloc, &found, preface) {
        Ok(read) => read,
        Err(fault) => return Err(fault_in(&found, fault)),
    };
    if !are_same(preface.names(), own.names()) {
        return Err(OpeningFault::AnotherCatalogue);
    }
    let entries = entries_of(alloc, &stored)?;
    let _: SetUpHall<P, KeepAll> = made_again(rt, alloc, catalogue, entries, found, 1, maker, 1)?;
    Ok(stored)
}

/// Fails where there is no folder that a file at this path would be in.
fn look_for_folder<R: Files>(rt: &R, path: &str) -> io::Result<()> {
    let folder = match Path::new(path).parent() {
        Some(folder) if !folder.as_str().is_empty() => folder.as_str(),
        Some(_) => ".",
        None => path,
    };
    fs::metadata(rt, folder)?;
    Ok(())
}

/// The records of the file at a path, which is not one of somebody else.
fn records_at<R: Files<File = File> + AllocGlobal>(
    rt: &R,
    path: &str,
) -> Result<Vec<Vec<u8>>, OpeningFault> {
    if !fs::metadata(rt, path)?.is_file() {
        return Err(OpeningFault::NotAFile);
    }
    let mut bytes = Vec::new(rt.alloc());
    OpenOptions::new()
        .read(true)
        .write(true)
        .open(rt, path)?
        .read_to_end(&mut bytes)?;
    if !is_beginning(&bytes) {
        return Err(OpeningFault::Damaged(0));
    }
    match read_entries(rt.alloc(), &bytes) {
        Ok((found, _)) => Ok(found),
        Err(ReadError::Damaged(at)) => Err(OpeningFault::Damaged(at)),
        Err(ReadError::Memory) => Err(OpeningFault::Memory),
    }
}
