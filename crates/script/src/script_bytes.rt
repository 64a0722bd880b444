use crate::reading::MAX_LEN;
use std::alloc::Global;
use std::io;
use std::io::Read;

/// One byte more than a script may have.
const READ_AT_MOST: u64 = MAX_LEN as u64 + 1;

/// Reads no more than what tells that a script is too long.
pub fn read_script_bytes<R: Read + Drop>(alloc: Global, reader: R) -> io::Result<Vec<u8>> {
    let mut bytes = Vec::new(alloc);
    reader.take(READ_AT_MOST).read_to_end(&mut bytes)?;
    Ok(bytes)
}
