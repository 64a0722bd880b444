use crate::same::{holds, same};
use control::{is_one_line, tell};
use std::io::ErrorKind;
use test_support::{Fault, FaultyReader, FaultyWriter};

/// A line; the faulty read and the faulty write, counted from 1, and what is faulty about it; what is told, or the text of the fault.
type Row = (&'static [u8], (usize, usize, Fault), &'static [u8], Counts);

/// How many bytes were sent, by writes of three, and how many flushes there were; how often was read, and how many bytes were not.
type Counts = (usize, usize, usize, usize);

const RESET: Fault = Fault::Error(ErrorKind::ConnectionReset);

const BROKEN: Fault = Fault::Error(ErrorKind::BrokenPipe);

const INTERRUPTED: Fault = Fault::Error(ErrorKind::Interrupted);

/// What the server sends: an answer, and bytes behind it.
const SENDS: &[u8] = b"done\nmore\n";

static ROWS: [Row; 12] = [
    (b"pass db", (0, 0, RESET), b"done", (8, 1, 5, 5)),
    // a line without a byte is sent and has no answer
    (b"", (0, 0, RESET), b"", (1, 1, 0, 10)),
    (b"\r", (0, 0, RESET), b"", (2, 1, 0, 10)),
    // a read that fails, and one behind which no more comes
    (
        b"pass db",
        (1, 0, RESET),
        b"read: connection reset",
        (8, 1, 1, 10),
    ),
    (
        b"pass db",
        (4, 0, INTERRUPTED),
        b"read: operation interrupted",
        (8, 1, 4, 7),
    ),
    (
        b"pass db",
        (1, 0, Fault::Nothing),
        b"no answer",
        (8, 1, 1, 10),
    ),
    (
        b"pass db",
        (5, 0, Fault::Nothing),
        b"no answer",
        (8, 1, 5, 6),
    ),
    // a write that fails, one of no byte, and a flush
    (
        b"pass db",
        (0, 1, BROKEN),
        b"write: broken pipe",
        (0, 0, 0, 10),
    ),
    (
        b"pass db",
        (0, 2, INTERRUPTED),
        b"write: operation interrupted",
        (3, 0, 0, 10),
    ),
    (
        b"pass db",
        (0, 3, BROKEN),
        b"write: broken pipe",
        (6, 0, 0, 10),
    ),
    (
        b"pass db",
        (0, 2, Fault::Nothing),
        b"write: write zero",
        (3, 0, 0, 10),
    ),
    (
        b"pass db",
        (0, 4, BROKEN),
        b"write: broken pipe",
        (8, 0, 0, 10),
    ),
];

/// That nothing else is written, and that a line is read up to its LF and 65,536 bytes, its contract says.
#[test]
fn sends_a_line_and_reads_its_answer_and_no_more(rt: HostRuntime) {
    let alloc = rt.alloc();
    for row in &ROWS {
        let (line, (read, write, fault), expected, counts) = *row;
        let mut reader = FaultyReader::new(SENDS, read, fault);
        let mut writer = FaultyWriter::new(alloc, 3, write, fault);
        holds(&rt, is_one_line(line), "one line");
        let text = match tell(alloc, &mut reader, &mut writer, line) {
            Ok(Some(answer)) => answer,
            Ok(None) => Vec::new(alloc),
            Err(fault) => fault.to_string(alloc).expect(&rt, "memory").into_bytes(),
        };
        let (written, flushes) = (writer.written().len(), writer.flushes().len());
        let found = (
            text.as_slice(),
            (written, flushes, reader.calls(), reader.rest().len()),
        );
        same(&rt, &found, &(expected, counts), &row);
    }
}
