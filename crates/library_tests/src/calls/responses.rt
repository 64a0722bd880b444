//! What calls come to, byte by byte, of those that a client cannot see.

use crate::calls::doors::{Flipping, NAMES};
use crate::calls::runs::exchange_over;
use crate::calls::texts::{
    HEAD_TOO_LARGE, REQUEST_TOO_LARGE, SERVING, UNKNOWN_METHOD, UNKNOWN_SERVICE, WATCH_OF_FLIPS,
    WATCH_OF_NOT_SERVING, WATCH_OF_UNKNOWN,
};
use crate::names::catalogue;
use crate::same::same;
use client::{AskFault, ask};
use grpc_frame::Code;
use std::alloc::Global;
use std::process::Abort;
use test_support::requests::{CHECK_OF_EMPTY, LIST, WATCH_OF_EMPTY, WATCH_OF_ZZ};
use test_support::{Fault, FaultyReader, FaultyWriter};
use web_call::{ExchangeFault, Method, Outcome, Turn, Why};

const CUT: Result<Outcome, ExchangeFault> = Err(ExchangeFault {
    why: Why::Read,
    frames: 0,
});

/// A request, how its call ends, what is written, how many bytes are left unread, and how often the door was asked.
struct Row {
    input: &'static [u8],
    result: Result<Outcome, ExchangeFault>,
    text: &'static [u8],
    unread: usize,
    asked: u32,
}

/// A call of a method that is not served, with a body that would be too long.
const LIST_OF_9000: &[u8] = b"POST /grpc.health.v1.Health/List HTTP/1.1\r\n\
    content-type: application/grpc-web+proto\r\n\
    content-length: 9000\r\n\
    \r\n\
    \x00\x00\x00\x00\x00";

/// A Check of a name of 129 bytes, which is one more than a catalogue's names may have.
const CHECK_OF_129: &[u8] = b"POST /grpc.health.v1.Health/Check HTTP/1.1\r\n\
    content-type: application/grpc-web+proto\r\n\
    content-length: 137\r\n\
    \r\n\
    \x00\x00\x00\x00\x84\x0a\x81\x01\
    aaaaaaaaaaaaaaaaaaaaaaaaaaaaaaaaaaaaaaaaaaaaaaaaaaaaaaaaaaaaaaaa\
    aaaaaaaaaaaaaaaaaaaaaaaaaaaaaaaaaaaaaaaaaaaaaaaaaaaaaaaaaaaaaaaa\
    a";

/// A Check of the empty name whose body ends before its last byte.
const CHECK_OF_4: &[u8] = b"POST /grpc.health.v1.Health/Check HTTP/1.1\r\n\
    content-type: application/grpc-web+proto\r\n\
    content-length: 5\r\n\
    \r\n\
    \x00\x00\x00\x00";

static ROWS: [Row; 7] = [
    Row {
        input: WATCH_OF_ZZ,
        result: Ok(Outcome::Watched { messages: 1 }),
        text: WATCH_OF_UNKNOWN,
        unread: 0,
        asked: 2,
    },
    Row {
        input: CHECK_OF_EMPTY,
        result: Ok(Outcome::Status(Code::Ok)),
        text: SERVING,
        unread: 0,
        asked: 1,
    },
    Row {
        input: LIST_OF_9000,
        result: Ok(Outcome::Status(Code::ResourceExhausted)),
        text: REQUEST_TOO_LARGE,
        unread: 5,
        asked: 0,
    },
    Row {
        input: LIST,
        result: Ok(Outcome::Status(Code::Unimplemented)),
        text: UNKNOWN_METHOD,
        unread: 5,
        asked: 0,
    },
    Row {
        input: CHECK_OF_129,
        result: Ok(Outcome::Status(Code::NotFound)),
        text: UNKNOWN_SERVICE,
        unread: 0,
        asked: 1,
    },
    Row {
        input: b"POST /grpc.health.v1.Health/Check HTTP/1.1\r\n",
        result: CUT,
        text: b"",
        unread: 0,
        asked: 0,
    },
    Row {
        input: CHECK_OF_4,
        result: CUT,
        text: b"",
        unread: 0,
        asked: 0,
    },
];

fn expect(rt: &impl Abort, alloc: Global, row: &Row) {
    let names = catalogue(rt, alloc, &NAMES);
    let mut door = Flipping::new(alloc, &names, &[]);
    let mut reader = FaultyReader::new(row.input, 0, Fault::Nothing);
    let mut writer = FaultyWriter::new(alloc, 1_000, 0, Fault::Nothing);
    let turns = [Turn::Look, Turn::End];
    let (result, asked, _) = exchange_over(alloc, &mut reader, &mut writer, &mut door, &turns, 10);
    let found = (result, writer.written(), reader.rest().len(), asked.0);
    let expected = (row.result, row.text, row.unread, row.asked);
    same(rt, &found, &expected, &row.input);
}

#[test]
fn a_call_writes_its_response_and_leaves_the_rest_unread(rt: HostRuntime) {
    for row in &ROWS {
        expect(&rt, rt.alloc(), row);
    }
}

/// A head that does not end is refused at its 8,192nd byte, and the next one stays.
#[test]
fn no_more_is_read_of_a_head_that_is_too_long(rt: HostRuntime) {
    let alloc = rt.alloc();
    let input = vec![in alloc; b'a'; 8_193].expect(&rt, "memory");
    let names = catalogue(&rt, alloc, &NAMES);
    let mut door = Flipping::new(alloc, &names, &[]);
    let mut reader = FaultyReader::new(&input, 0, Fault::Nothing);
    let mut writer = FaultyWriter::new(alloc, 1_000, 0, Fault::Nothing);
    let (result, _, _) = exchange_over(alloc, &mut reader, &mut writer, &mut door, &[], 10);
    let found = (result, writer.written(), reader.rest().len());
    let expected = (Ok(Outcome::Http(431)), HEAD_TOO_LARGE, 1);
    same(&rt, &found, &expected, &"a long head");
}

/// A Watch of the empty name that has these turns ends as expected, and writes this.
fn watched(
    rt: &impl Abort,
    alloc: Global,
    door: &mut Flipping<'_>,
    turns: &[Turn],
    expected: (Outcome, &[u8]),
) {
    let mut reader = FaultyReader::new(WATCH_OF_EMPTY, 0, Fault::Nothing);
    let mut writer = FaultyWriter::new(alloc, 1_000, 0, Fault::Nothing);
    let (result, _, _) = exchange_over(alloc, &mut reader, &mut writer, door, turns, 10);
    let (outcome, text) = expected;
    same(
        rt,
        &(result, writer.written()),
        &(Ok(outcome), text),
        &"a Watch",
    );
}

/// The registry keeps four changes. A Watch is told its first statuses in order, up to where others have come that it cannot be told, and
/// another one is told the status of now.
#[test]
fn a_watch_that_is_behind_ends_and_another_is_told_what_is(rt: HostRuntime) {
    let alloc = rt.alloc();
    let names = catalogue(&rt, alloc, &NAMES);
    let mut door = Flipping::new(alloc, &names, &[1, 1, 99]);
    let behind = (Outcome::Behind { messages: 3 }, WATCH_OF_FLIPS);
    watched(&rt, alloc, &mut door, &[Turn::Look; 4], behind);
    let newcomer = (Outcome::Watched { messages: 1 }, WATCH_OF_NOT_SERVING);
    watched(&rt, alloc, &mut door, &[Turn::End], newcomer);
}

/// What is told of a Check's response: the statuses, and the status of its end.
type Told = Result<(Option<u64>, usize, Option<u32>), AskFault>;

fn told(alloc: Global, response: &[u8]) -> Told {
    let mut reader = FaultyReader::new(response, 0, Fault::Nothing);
    let mut writer = FaultyWriter::new(alloc, 1_000, 0, Fault::Nothing);
    match ask(alloc, &mut reader, &mut writer, Method::Check, "", 1) {
        Ok(told) => {
            let code = match &told.end {
                Some(end) => Some(end.code),
                None => None,
            };
            Ok((told.statuses.first().copied(), told.statuses.len(), code))
        }
        Err(fault) => Err(fault),
    }
}

#[test]
fn a_check_needs_all_of_its_response(rt: HostRuntime) {
    for len in 0..SERVING.len() {
        let front = SERVING.get(..len).expect(&rt, "a front");
        same(&rt, &told(rt.alloc(), front), &Err(AskFault::Read), &len);
    }
    let expected = Ok((Some(1), 1, Some(0)));
    same(&rt, &told(rt.alloc(), SERVING), &expected, &"all");
}
