//! The standard descriptors.

use crate::listener::is_open;
use std::io;

const NULL: &[u8] = b"/dev/null";

/// Opens `/dev/null` as each of the descriptors 0, 1 and 2 that is closed, and leaves it open, so that no file and no socket has one
/// of these numbers. It is called before the process opens anything.
pub fn open_standard_descriptors() -> io::Result<()> {
    for descriptor in 0..3 {
        // The system gives the lowest number that is free.
        if !is_open(descriptor) && os::open_update(NULL) != descriptor {
            return Err(io::Error::from_raw_os_error(os::errno()));
        }
    }
    Ok(())
}
