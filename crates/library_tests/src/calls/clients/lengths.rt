use crate::same::same;
use client::{AskFault, ask};
use std::alloc::Global;
use std::io::ErrorKind;
use std::process::Abort;
use test_support::{Fault, FaultyReader, FaultyWriter};
use web_call::Method;

/// A head of 47 bytes and the line of a chunk, behind which nothing comes: 1,048,576 and 1,048,577 bytes of content, and 1,073,741,824
/// and 1,073,741,825.
static LINES: [&[u8]; 4] = [
    b"HTTP/1.1 200 OK\r\ntransfer-encoding: chunked\r\n\r\n100000\r\n",
    b"HTTP/1.1 200 OK\r\ntransfer-encoding: chunked\r\n\r\n100001\r\n",
    b"HTTP/1.1 200 OK\r\ntransfer-encoding: chunked\r\n\r\n40000000\r\n",
    b"HTTP/1.1 200 OK\r\ntransfer-encoding: chunked\r\n\r\n40000001\r\n",
];

/// Asks over a reader of these bytes. The call ends by this fault after so many reads, one for each byte, and one more where it goes on.
fn expect(
    rt: &impl Abort,
    alloc: Global,
    input: &[u8],
    method: Method,
    expected: (Option<AskFault>, usize),
) {
    let fault = Fault::Error(ErrorKind::BrokenPipe);
    let mut reader = FaultyReader::new(input, 0, fault);
    let mut writer = FaultyWriter::new(alloc, 4096, 0, fault);
    let result = ask(alloc, &mut reader, &mut writer, method, "", 2);
    let found = (result.err(), reader.calls());
    same(rt, &found, &expected, &(method, input));
}

/// The content of a Check's chunks has the limit of a body by its length, and only that of a Watch's may be longer.
#[test]
fn refuses_chunks_that_are_too_long_at_their_line(rt: HostRuntime) {
    let alloc = rt.alloc();
    let (read, bad) = (Some(AskFault::Read), Some(AskFault::BadResponse));
    expect(&rt, alloc, LINES[0], Method::Check, (read, 56));
    expect(&rt, alloc, LINES[1], Method::Check, (bad, 55));
    expect(&rt, alloc, LINES[1], Method::Watch, (read, 56));
    expect(&rt, alloc, LINES[2], Method::Watch, (read, 58));
    expect(&rt, alloc, LINES[3], Method::Watch, (bad, 57));
}
