use reactor::Stream;
use std::io;
use std::io::{Read, Write};

/// A reader and a writer as one stream.
#[derive(Drop)]
pub(crate) struct Pair<R, W> {
    pub(crate) reader: R,
    pub(crate) writer: W,
}

impl<R: Read + Drop, W: Write + Drop> Stream for Pair<R, W> {
    ghost remaining = { λ pair. R.remaining pair.reader };

    ghost contents = { λ pair. W.contents pair.writer };

    fn read(&mut self, buffer: &mut [u8]) -> io::Result<usize> {
        self.reader.read(buffer)
    }

    fn write(&mut self, bytes: &[u8]) -> io::Result<usize> {
        self.writer.write(bytes)
    }
}
