use crate::fault::Fault;
use script::read_script_bytes;
use std::alloc::Global;
use std::io::{ErrorKind, Read};

/// Reads the bytes of a script, where the fault tells no cause.
pub fn read<R: Read + Drop>(alloc: Global, reader: R) -> Result<Vec<u8>, Fault> {
    match read_script_bytes(alloc, reader) {
        Ok(bytes) => Ok(bytes),
        Err(error) if error.kind() == ErrorKind::OutOfMemory => Err(Fault::OutOfMemory),
        Err(_) => Err(Fault::Read),
    }
}
