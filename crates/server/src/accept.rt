use crate::request_reader::RequestReader;
use crate::response_writer::ResponseWriter;
use crew::{Job, Unopened};
use std::alloc::Global;
use std::io;
use std::net::{TcpListener, TcpStream};
use std::time::Duration;

/// How many seconds a call waits for the other side, for each read and each write. After them it is an error.
const PATIENCE: u64 = 30;

/// The next connection that comes.
#[derive(Clone, Copy)]
pub struct Accept<'a> {
    alloc: Global,
    listener: &'a TcpListener,
}

impl<'a> Accept<'a> {
    /// The next connection to this listener. Its buffer is of this memory.
    pub fn new(alloc: Global, listener: &'a TcpListener) -> Accept<'a> {
        Accept { alloc, listener }
    }
}

impl Job for Accept<'_> {
    type Input = RequestReader;

    type Output = ResponseWriter;

    fn open(self) -> Result<(RequestReader, ResponseWriter), Unopened> {
        let Ok((stream, _)) = self.listener.accept() else {
            return Err(Unopened);
        };
        let patience = Duration::from_secs(PATIENCE);
        ends_of(self.alloc, stream, patience).map_err(|_| Unopened)
    }
}

/// The two ends of a connection, where each read and each write is an error after so much time.
pub fn ends_of(
    alloc: Global,
    stream: TcpStream,
    patience: Duration,
) -> io::Result<(RequestReader, ResponseWriter)> {
    stream.set_read_timeout(Some(patience))?;
    stream.set_write_timeout(Some(patience))?;
    stream.set_nodelay(true)?;
    let outgoing = stream.try_clone()?;
    let reader = RequestReader::new(alloc, stream)?;
    Ok((reader, ResponseWriter::new(outgoing)))
}
