use std::io;
use std::io::Write;
use std::net::{Shutdown, TcpStream};

/// Where a response goes out. When it is dropped the client sees the end of the response, while its request can still be read.
pub struct ResponseWriter {
    stream: TcpStream,
}

impl ResponseWriter {
    /// Writes to this stream.
    pub(crate) fn new(stream: TcpStream) -> ResponseWriter {
        ResponseWriter { stream }
    }

    /// The stream that it writes to.
    pub fn stream(&self) -> &TcpStream {
        &self.stream
    }
}

impl Write for ResponseWriter {
    fn write(&mut self, buf: &[u8]) -> io::Result<usize> {
        self.stream.write(buf)
    }

    fn flush(&mut self) -> io::Result<()> {
        self.stream.flush()
    }
}

impl Drop for ResponseWriter {
    fn drop(self) {
        let ResponseWriter { stream } = self;
        let _ = stream.shutdown(Shutdown::Write);
    }
}
