use crate::calls::doors::{Flipping, NAMES};
use crate::calls::runs::{Asked, exchange_over};
use crate::calls::texts::{
    METHOD_NOT_ALLOWED, SERVING, UNKNOWN_METHOD, WATCH_OF_FLIPS, WATCH_OF_SERVING, WATCH_OF_UNKNOWN,
};
use crate::names::catalogue;
use crate::same::{holds, same};
use grpc_frame::Code;
use std::alloc::Global;
use std::io::{ErrorKind, Write};
use std::process::Abort;
use test_support::requests::{LIST, WATCH_OF_EMPTY, WATCH_OF_ZZ};
use test_support::{Fault, FaultyReader, FaultyWriter};
use web_call::{ExchangeFault, Outcome, Tap, Turn, Why};

/// A request, and what it comes to at a registry of its own.
struct Row {
    input: &'static [u8],
    /// How many reads there are: one for each byte of the head, and one for each 512 of the body.
    reads: usize,
    /// How many bytes are left unread.
    unread: usize,
    /// How often the empty name is set before each step.
    flips: &'static [u32],
    turns: &'static [Turn],
    /// The most Looks.
    looks: u32,
    outcome: Outcome,
    /// The response, how many of its bytes there are up to the end of each frame, how many up to each flush, and who was asked up to it.
    text: &'static [u8],
    frames: &'static [usize],
    flushes: &'static [usize],
    asked: &'static [Asked],
}

/// A head of 110 bytes and a body of 1,029, whose message is the unknown field 9, and what is no part of the request.
const LONG_CHECK: &[u8] = b"POST /grpc.health.v1.Health/Check HTTP/1.1\r\n\
    content-type: application/grpc-web+proto\r\n\
    content-length: 1029\r\n\r\n\
    \0\0\0\x04\0\x4a\xfd\x07\
    aaaaaaaaaaaaaaaaaaaaaaaaaaaaaaaaaaaaaaaaaaaaaaaaaaaaaaaaaaaaaaaa\
    aaaaaaaaaaaaaaaaaaaaaaaaaaaaaaaaaaaaaaaaaaaaaaaaaaaaaaaaaaaaaaaa\
    aaaaaaaaaaaaaaaaaaaaaaaaaaaaaaaaaaaaaaaaaaaaaaaaaaaaaaaaaaaaaaaa\
    aaaaaaaaaaaaaaaaaaaaaaaaaaaaaaaaaaaaaaaaaaaaaaaaaaaaaaaaaaaaaaaa\
    aaaaaaaaaaaaaaaaaaaaaaaaaaaaaaaaaaaaaaaaaaaaaaaaaaaaaaaaaaaaaaaa\
    aaaaaaaaaaaaaaaaaaaaaaaaaaaaaaaaaaaaaaaaaaaaaaaaaaaaaaaaaaaaaaaa\
    aaaaaaaaaaaaaaaaaaaaaaaaaaaaaaaaaaaaaaaaaaaaaaaaaaaaaaaaaaaaaaaa\
    aaaaaaaaaaaaaaaaaaaaaaaaaaaaaaaaaaaaaaaaaaaaaaaaaaaaaaaaaaaaaaaa\
    aaaaaaaaaaaaaaaaaaaaaaaaaaaaaaaaaaaaaaaaaaaaaaaaaaaaaaaaaaaaaaaa\
    aaaaaaaaaaaaaaaaaaaaaaaaaaaaaaaaaaaaaaaaaaaaaaaaaaaaaaaaaaaaaaaa\
    aaaaaaaaaaaaaaaaaaaaaaaaaaaaaaaaaaaaaaaaaaaaaaaaaaaaaaaaaaaaaaaa\
    aaaaaaaaaaaaaaaaaaaaaaaaaaaaaaaaaaaaaaaaaaaaaaaaaaaaaaaaaaaaaaaa\
    aaaaaaaaaaaaaaaaaaaaaaaaaaaaaaaaaaaaaaaaaaaaaaaaaaaaaaaaaaaaaaaa\
    aaaaaaaaaaaaaaaaaaaaaaaaaaaaaaaaaaaaaaaaaaaaaaaaaaaaaaaaaaaaaaaa\
    aaaaaaaaaaaaaaaaaaaaaaaaaaaaaaaaaaaaaaaaaaaaaaaaaaaaaaaaaaaaaaaa\
    aaaaaaaaaaaaaaaaaaaaaaaaaaaaaaaaaaaaaaaaaaaaaaaaaaaaaaaaaaaaa\
    more";

const LOOK: Turn = Turn::Look;

const END: Turn = Turn::End;

const TOLD_1: Outcome = Outcome::Watched { messages: 1 };

/// A refusal of HTTP and a status that is decided before a Watch begins ask nobody, and a Check asks its door once. Each is flushed
/// once, behind its last byte. A Watch is flushed behind its first message, which follows its head of 108 bytes, behind each later
/// message's chunk of 12 bytes, and behind its end of 58 bytes.
static ROWS: [Row; 8] = [
    Row {
        input: b"GET / HTTP/1.1\r\n\r\n",
        reads: 18,
        unread: 0,
        flips: &[],
        turns: &[],
        looks: 10,
        outcome: Outcome::Http(405),
        text: METHOD_NOT_ALLOWED,
        frames: &[],
        flushes: &[86],
        asked: &[(0, 0, 0)],
    },
    Row {
        input: LIST,
        reads: 106,
        unread: 5,
        flips: &[],
        turns: &[],
        looks: 10,
        outcome: Outcome::Status(Code::Unimplemented),
        text: UNKNOWN_METHOD,
        frames: &[150],
        flushes: &[150],
        asked: &[(0, 0, 0)],
    },
    Row {
        input: LONG_CHECK,
        reads: 113,
        unread: 4,
        flips: &[],
        turns: &[],
        looks: 10,
        outcome: Outcome::Status(Code::Ok),
        text: SERVING,
        frames: &[107, 127],
        flushes: &[127],
        asked: &[(1, 0, 0)],
    },
    // the bell ends it
    Row {
        input: WATCH_OF_ZZ,
        reads: 108,
        unread: 0,
        flips: &[],
        turns: &[LOOK, LOOK, END],
        looks: 3,
        outcome: TOLD_1,
        text: WATCH_OF_UNKNOWN,
        frames: &[118, 171],
        flushes: &[120, 178],
        asked: &[(1, 0, 0), (3, 3, 2)],
    },
    // the limit does, and the bell is not asked again
    Row {
        input: WATCH_OF_ZZ,
        reads: 108,
        unread: 0,
        flips: &[],
        turns: &[LOOK, LOOK, LOOK, LOOK],
        looks: 3,
        outcome: TOLD_1,
        text: WATCH_OF_UNKNOWN,
        frames: &[118, 171],
        flushes: &[120, 178],
        asked: &[(1, 0, 0), (4, 3, 3)],
    },
    Row {
        input: WATCH_OF_ZZ,
        reads: 108,
        unread: 0,
        flips: &[],
        turns: &[LOOK, END],
        looks: 0,
        outcome: TOLD_1,
        text: WATCH_OF_UNKNOWN,
        frames: &[118, 171],
        flushes: &[120, 178],
        asked: &[(1, 0, 0), (1, 0, 0)],
    },
    // it is told two changes
    Row {
        input: WATCH_OF_EMPTY,
        reads: 108,
        unread: 0,
        flips: &[1, 0, 1],
        turns: &[LOOK, LOOK, LOOK],
        looks: 10,
        outcome: Outcome::Watched { messages: 3 },
        text: WATCH_OF_FLIPS,
        frames: &[118, 130, 142, 195],
        flushes: &[120, 132, 144, 202],
        asked: &[(1, 0, 0), (2, 1, 1), (4, 3, 3), (4, 4, 3)],
    },
    // it is behind
    Row {
        input: WATCH_OF_EMPTY,
        reads: 108,
        unread: 0,
        flips: &[17],
        turns: &[LOOK, LOOK, END],
        looks: 10,
        outcome: Outcome::Behind { messages: 1 },
        text: WATCH_OF_SERVING,
        frames: &[118, 171],
        flushes: &[120, 178],
        asked: &[(1, 0, 0), (2, 1, 1)],
    },
];

/// What an exchange ends with whose request was not read whole.
const CUT: ExchangeFault = ExchangeFault {
    why: Why::Read,
    frames: 0,
};

/// What an exchange ends with whose writer fails after this many bytes. The frames of its response end at these places.
fn broken_off(frames: &[usize], taken: usize) -> ExchangeFault {
    let mut whole = 0u32;
    for end in frames {
        if *end <= taken {
            whole = whole.saturating_add(1);
        }
    }
    ExchangeFault {
        why: Why::Write,
        frames: whole,
    }
}

/// Answers the request with a writer that takes so many bytes a call, where the read or the write of this number is faulty: that is the
/// exchange's last call, and nobody is asked behind it. A flush that is told to take nothing succeeds. What stands up to a flush is
/// written at once.
fn expect(
    rt: &impl Abort,
    alloc: Global,
    row: &Row,
    most: usize,
    fault: Fault,
    calls: (usize, usize),
) {
    let catalogue = catalogue(rt, alloc, &NAMES);
    let mut door = Flipping::new(alloc, &catalogue, row.flips);
    let (read, write) = calls;
    let mut reader = FaultyReader::new(row.input, read, fault);
    let mut writer = FaultyWriter::new(alloc, most, write, fault);
    let (result, asked, has_failed) = exchange_over(
        alloc,
        &mut reader,
        &mut writer,
        &mut door,
        row.turns,
        row.looks,
    );
    let flushed = writer.flushes().len();
    let taken = write.saturating_sub(flushed).saturating_sub(1);
    let found = (
        result,
        Some(asked),
        (reader.calls(), writer.calls()),
        Some(writer.written()),
    );
    let expected = if read > 0 {
        (Err(CUT), Some((0, 0, 0)), (read, 0), row.text.get(..0))
    } else if has_failed {
        (
            Err(broken_off(row.frames, taken)),
            row.asked.get(flushed).copied(),
            (row.reads, write),
            row.text.get(..taken),
        )
    } else {
        let left = (writer.flushes(), reader.rest().len());
        same(rt, &left, &(row.flushes, row.unread), &(row.outcome, most));
        let writes = if most > 1 { flushed } else { row.text.len() };
        (
            Ok(row.outcome),
            row.asked.last().copied(),
            (row.reads, writes.saturating_add(flushed)),
            Some(row.text),
        )
    };
    same(rt, &found, &expected, &(row.outcome, fault, read, write));
}

const BROKEN: Fault = Fault::Error(ErrorKind::BrokenPipe);

/// An error of any kind is a fault at once, a read of no byte is the end of the input, and a write of no byte a fault.
static FAULTS: [Fault; 4] = [
    BROKEN,
    Fault::Error(ErrorKind::Interrupted),
    Fault::Error(ErrorKind::WouldBlock),
    Fault::Nothing,
];

/// No contract speaks of flushes, nor of a bell that is asked once more, nor of how much is read and written at once. A message, a refusal
/// or an end that is not flushed, and a flush or a question too many, are refused here.
#[test]
fn flushes_where_its_reader_waits_and_ends_at_each_faulty_call(rt: HostRuntime) {
    let alloc = rt.alloc();
    for row in &ROWS {
        expect(&rt, alloc, row, 1_000, BROKEN, (0, 0));
        let writes = row.text.len().saturating_add(row.flushes.len());
        for &fault in &FAULTS {
            for read in 1..=row.reads {
                expect(&rt, alloc, row, 1, fault, (read, 0));
            }
            for write in 0..=writes {
                expect(&rt, alloc, row, 1, fault, (0, write));
            }
        }
    }
    // a tap tells what a write comes to
    let mut tap = Tap::new(FaultyWriter::new(alloc, 100, 1, BROKEN));
    let went = (tap.write(b"a text").is_ok(), tap.write(b"").is_ok());
    holds(&rt, went == (false, true), "a tap");
}
