use crate::same::{holds, same};
use client::{AskFault, ask};
use std::alloc::Global;
use std::io::ErrorKind;
use std::process::Abort;
use test_support::{Fault, FaultyReader, FaultyWriter};
use web_call::Method;

const BROKEN: Fault = Fault::Error(ErrorKind::BrokenPipe);

/// What a faulty call does: it moves no byte, or returns an error, which ends the call at once, of whatever kind.
static FAULTS: [Fault; 3] = [BROKEN, Fault::Error(ErrorKind::Interrupted), Fault::Nothing];

/// A response, and with how many calls it is read whole: one for each byte of a head, and of a chunk's line, and one for each flag, length,
/// content and end of a chunk.
type Row = (&'static [u8], Method, usize);

static READS: [Row; 2] = [
    (
        b"HTTP/1.1 200 OK\r\n\
        connection: close\r\n\
        content-type: application/grpc-web+proto\r\n\
        content-length: 27\r\n\
        \r\n\
        \0\0\0\0\x02\x08\x01\
        \x80\0\0\0\x0fgrpc-status:0\r\n",
        Method::Check,
        106,
    ),
    (
        b"HTTP/1.1 200 OK\r\n\
        connection: close\r\n\
        content-type: application/grpc-web+proto\r\n\
        transfer-encoding: chunked\r\n\
        \r\n\
        7\r\n\
        \0\0\0\0\x02\x08\x03\r\n\
        2f\r\n\
        \x80\0\0\0\x2agrpc-status:14\r\n\
        grpc-message:watch ended\r\n\
        \r\n\
        0\r\n\
        \r\n",
        Method::Watch,
        122,
    ),
];

/// How many bytes a request has. A flush is one call more.
const REQUEST_LEN: usize = 144;

/// Asks over a reader, and a writer of one byte a call, whose read and whose call of this number is faulty. It ends by this fault, or by
/// none, after so many reads, and so many writes and flushes.
fn expect(
    rt: &impl Abort,
    alloc: Global,
    row: &Row,
    fault: Fault,
    calls: (usize, usize),
    expected: (Option<AskFault>, usize, usize),
) {
    let (input, method, _) = *row;
    let (read, write) = calls;
    let mut reader = FaultyReader::new(input, read, fault);
    let mut writer = FaultyWriter::new(alloc, 1, write, fault);
    let result = ask(alloc, &mut reader, &mut writer, method, "", 2);
    let found = (result.err(), reader.calls(), writer.calls());
    same(rt, &found, &expected, &(method, fault, read, write));
}

/// Each write of the request is one of its bytes, and the flush stands behind them. A flush that is told to take nothing succeeds.
#[test]
fn ends_at_each_faulty_call_and_flushes_once_behind_the_request(rt: HostRuntime) {
    let alloc = rt.alloc();
    let flush = REQUEST_LEN.saturating_add(1);
    for row in &READS {
        expect(&rt, alloc, row, BROKEN, (0, 0), (None, row.2, flush));
        for &fault in &FAULTS {
            for read in 1..=row.2 {
                let expected = (Some(AskFault::Read), read, flush);
                expect(&rt, alloc, row, fault, (read, 0), expected);
            }
            for write in 1..=REQUEST_LEN {
                let expected = (Some(AskFault::Write), 0, write);
                expect(&rt, alloc, row, fault, (0, write), expected);
            }
        }
        let expected = (Some(AskFault::Write), 0, flush);
        expect(&rt, alloc, row, BROKEN, (0, flush), expected);
    }
    // the words for what no server brings about
    let (write, memory) = (AskFault::Write, AskFault::NoMemory);
    let words = format!(in alloc; "{write}, {memory}").expect(&rt, "memory");
    holds(&rt, words.as_str() == "write, out of memory", "words");
}
