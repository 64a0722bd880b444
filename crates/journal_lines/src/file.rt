//! No contract can see what a file has: `print_entries` says what is printed of its bytes.

use crate::printing::print_entries;
use crate::printing_fault::PrintingFault;
use std::alloc::Global;
use std::io::{Read, Write};
use std::rt::Files;
use std::{fs, io};

/// Prints the entries of the journal in a file, one a line, the oldest first, and all are seen then. The file is neither locked nor
/// written, so a server may have it: entries that it makes meanwhile are printed or not.
pub fn print_journal<R: Files, O: Write>(
    rt: &R,
    alloc: Global,
    path: &str,
    is_json: bool,
    output: &mut O,
) -> Result<(), PrintingFault> {
    let bytes = bytes_of(rt, alloc, path)?;
    if !may_be_journal(&bytes) {
        return Err(PrintingFault::Damaged(0));
    }
    print_entries(alloc, &bytes, is_json, output)?;
    match output.flush() {
        Ok(()) => Ok(()),
        Err(error) => Err(PrintingFault::of_writing(error)),
    }
}

/// Whether a file begins as one may that a journal was put into, whatever came of that: with an open gate, which is 1, or a closed one.
fn may_be_journal(bytes: &[u8]) -> bool {
    match bytes.first() {
        Some(first) => *first <= 1,
        None => true,
    }
}

/// The bytes of a plain file. Another one is not opened, which may have to wait for somebody.
fn bytes_of<R: Files>(rt: &R, alloc: Global, path: &str) -> Result<Vec<u8>, PrintingFault> {
    match fs::metadata(rt, path) {
        Ok(found) if !found.is_file() => return Err(PrintingFault::NotAFile),
        Ok(_) => {}
        Err(error) => return Err(PrintingFault::of_reading(error)),
    }
    match read(rt, alloc, path) {
        Ok(bytes) => Ok(bytes),
        Err(error) => Err(PrintingFault::of_reading(error)),
    }
}

fn read<R: Files>(rt: &R, alloc: Global, path: &str) -> io::Result<Vec<u8>> {
    let mut bytes = Vec::new(alloc);
    fs::open(rt, path)?.read_to_end(&mut bytes)?;
    Ok(bytes)
}
