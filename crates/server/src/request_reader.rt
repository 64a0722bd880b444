use std::alloc::Global;
use std::io;
use std::io::{BufReader, Read};
use std::net::TcpStream;
use std::time::Duration;

/// How many milliseconds a call that has ended waits for what the client still sends, for each read.
const LINGERING: u64 = 100;

/// The most reads of what a client still sends when its call has ended.
const LAST_READS: usize = 16;

const LAST_READ_LEN: usize = 4_096;

/// Where a request comes in. What the client still sends when it is dropped is read and thrown away, up to a bound: a connection
/// that is closed before would be reset, and the client could lose the end of the response.
pub struct RequestReader {
    reader: BufReader<TcpStream>,
}

impl RequestReader {
    /// Reads from this stream, through a buffer.
    pub(crate) fn new(alloc: Global, stream: TcpStream) -> io::Result<RequestReader> {
        Ok(RequestReader {
            reader: BufReader::new(alloc, stream)?,
        })
    }

    /// The stream that it reads from.
    pub fn stream(&self) -> &TcpStream {
        self.reader.get_ref()
    }
}

impl Read for RequestReader {
    fn read(&mut self, buf: &mut [u8]) -> io::Result<usize> {
        self.reader.read(buf)
    }
}

impl Drop for RequestReader {
    fn drop(self) {
        let RequestReader { mut reader } = self;
        let lingering = Duration::from_millis(LINGERING);
        if reader.get_ref().set_read_timeout(Some(lingering)).is_ok() {
            discard(&mut reader);
        }
    }
}

/// Reads to the end of the input or to an error, and no more than 64 KiB.
pub fn discard<R: Read>(reader: &mut R) {
    let mut bytes = [0u8; LAST_READ_LEN];
    for _ in 0..LAST_READS {
        match reader.read(&mut bytes) {
            Ok(0) | Err(_) => return,
            Ok(_) => {}
        }
    }
}
