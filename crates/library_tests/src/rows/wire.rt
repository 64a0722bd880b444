//! Messages, frames and trailers, read from bytes.

use crate::same::{holds, same};
use grpc_frame::{SplitFault, Splitter, TrailerFault, read_trailers};
use health_wire::{WireFault, read_request};
use std::process::Abort;

const CUT: Result<&str, WireFault> = Err(WireFault::Truncated);

const BAD_TAG: Result<&str, WireFault> = Err(WireFault::BadTag);

const BAD_VARINT: Result<&str, WireFault> = Err(WireFault::BadVarint);

/// Requests, with their names. A client is told the same of all faults.
static REQUESTS: [(&[u8], Result<&str, WireFault>); 31] = [
    (b"", Ok("")),
    (b"\x0a\x01a", Ok("a")),
    (b"\x0a\x02a", CUT),
    (b"\x0a", CUT),
    (b"\x0b", BAD_TAG),
    (b"\x00", BAD_TAG),
    (b"\x80\x80\x80\x80\x80\x80\x80\x80\x80\x80", BAD_VARINT),
    (b"\x80\x80", CUT),
    (b"\x0a\x01\xff", Err(WireFault::NotText)),
    (b"\x0a\x01\xff\x0a\x01a", Ok("a")),
    (b"\x08\x01", Ok("")),
    (b"\x0a\x81\x00a", Ok("a")),
    // each front of a request, from no byte to all eight
    (b"", Ok("")),
    (b"\x0a", CUT),
    (b"\x0a\x01", CUT),
    (b"\x0a\x01a", Ok("a")),
    (b"\x0a\x01a\x48", CUT),
    (b"\x0a\x01a\x48\x05", Ok("a")),
    (b"\x0a\x01a\x48\x05\x0a", CUT),
    (b"\x0a\x01a\x48\x05\x0a\x01", CUT),
    (b"\x0a\x01a\x48\x05\x0a\x01b", Ok("b")),
    // values of eight and of four bytes, whole and cut
    (b"\x09\x01\x02\x03\x04\x05\x06\x07\x08", Ok("")),
    (b"\x09\x01\x02\x03\x04\x05\x06\x07", CUT),
    (b"\x0d\x01\x02\x03\x04", Ok("")),
    (b"\x0d\x01\x02\x03", CUT),
    // the greatest number of a field, and one more
    (b"\xf8\xff\xff\xff\x0f\x00", Ok("")),
    (b"\x80\x80\x80\x80\x10\x00", BAD_TAG),
    // a fault of the wire comes before a name that is no text
    (b"\x0a\x01\xff\x0a", CUT),
    // of two faults the first one from the left counts
    (b"\x0b\x80\x80\x80\x80\x80\x80\x80\x80\x80\x80", BAD_TAG),
    (b"\x0a\x80\x80\x80\x80\x80\x80\x80\x80\x80\x80", BAD_VARINT),
    // the empty name of a later field counts too
    (b"\x0a\x01a\x0a\x00", Ok("")),
];

#[test]
fn a_request_is_read_up_to_its_first_fault(rt: HostRuntime) {
    for (bytes, expected) in &REQUESTS {
        same(&rt, &read_request(*bytes), expected, bytes);
    }
}

const RESPONSE: &[u8] = b"\0\0\0\0\x02\x08\x01\x80\0\0\0\x0fgrpc-status:0\r\n";

/// The flags and the contents of its frames.
static FRAMES: [(u8, &[u8]); 2] = [(0, b"\x08\x01"), (0x80, b"grpc-status:0\r\n")];

#[test]
fn the_frames_of_a_response_are_taken_however_it_is_cut(rt: HostRuntime) {
    let mut splitter = Splitter::new(rt.alloc());
    for byte in RESPONSE {
        splitter.feed(&[*byte]).expect(&rt, "memory");
    }
    for &(flag, content) in &FRAMES {
        let taken = splitter.take().expect(&rt, "memory");
        let frame = taken.expect(&rt, "a frame");
        let found = (frame.flag, frame.body.as_slice());
        same(&rt, &found, &(flag, content), &"a frame");
    }
    let taken = splitter.take().expect(&rt, "memory");
    let is_over = taken.is_none() && splitter.rest().is_empty();
    holds(&rt, is_over, "nothing is left");
}

/// The front of a stream, and whether a frame is taken from it. A frame of 1,048,576 bytes is waited for, and a longer one refused.
static FRONTS: [(&[u8], Result<bool, SplitFault>); 7] = [
    (b"\0\0\x10\0\0", Ok(false)),
    (b"\0\0\x10\0\x01", Err(SplitFault::TooLong)),
    (b"\x80\xff\xff\xff\xffgrpc", Err(SplitFault::TooLong)),
    (b"", Ok(false)),
    (b"\x01\0\x10\0", Ok(false)),
    (b"\0\xff\xff\xff", Ok(false)),
    (b"\0\0\0\0\x02\x08", Ok(false)),
];

fn is_taken(splitter: &mut Splitter) -> Result<bool, SplitFault> {
    match splitter.take() {
        Ok(taken) => Ok(taken.is_some()),
        Err(fault) => Err(fault),
    }
}

/// No answer takes a byte, and the second is as the first.
#[test]
fn what_is_no_whole_frame_stays(rt: HostRuntime) {
    for (bytes, expected) in &FRONTS {
        let mut splitter = Splitter::new(rt.alloc());
        splitter.feed(*bytes).expect(&rt, "memory");
        let answers = (is_taken(&mut splitter), is_taken(&mut splitter));
        let found = (answers, splitter.rest());
        same(&rt, &found, &((*expected, *expected), *bytes), bytes);
    }
}

type Block = (&'static [u8], Result<(u32, &'static [u8]), TrailerFault>);

/// Blocks of trailers, with code and text. A client tells the same of all faults.
static BLOCKS: [Block; 12] = [
    (b"", Err(TrailerFault::NoStatus)),
    (b"grpc-message:x", Err(TrailerFault::NoStatus)),
    (b"grpc-status:0\r\nab", Err(TrailerFault::NoColon)),
    (b"\r\n", Err(TrailerFault::NoColon)),
    // a line without a colon counts before the other faults
    (b"grpc-status:x\r\nab", Err(TrailerFault::NoColon)),
    (b"grpc-status:x", Err(TrailerFault::BadStatus)),
    (b"grpc-status:1234567890", Err(TrailerFault::BadStatus)),
    (b"grpc-status:", Err(TrailerFault::BadStatus)),
    (
        b"grpc-status:x\r\ngrpc-status:0\r\n",
        Err(TrailerFault::BadStatus),
    ),
    (b"grpc-status: 0\r\n", Ok((0, b""))),
    (b"grpc-status:999999999", Ok((999_999_999, b""))),
    (b"GRPC-Message: x\r\na:b\r\ngrpc-status:\t7", Ok((7, b"x"))),
];

fn expect_trailers(rt: &impl Abort, block: &Block) {
    let (bytes, expected) = block;
    let found = match read_trailers(*bytes) {
        Ok(trailers) => Ok((trailers.code, trailers.text)),
        Err(fault) => Err(fault),
    };
    same(rt, &found, expected, bytes);
}

#[test]
fn trailers_are_read_or_refused_for_a_reason(rt: HostRuntime) {
    for block in &BLOCKS {
        expect_trailers(&rt, block);
    }
}
