use crate::same::same;
use crate::serving::machines::streams::Pair;
use reactor::{Last, Link, Past};
use std::io::ErrorKind;
use std::mem::size_of;
use test_support::{Fault, FaultyReader, FaultyWriter};

/// What a read and a write do, and how the link says that they ended.
static ROWS: [(Fault, Last); 8] = [
    (Fault::Nothing, Last::Ended),
    (Fault::Error(ErrorKind::WouldBlock), Last::Waits),
    (Fault::Error(ErrorKind::Interrupted), Last::Interrupted),
    (Fault::Error(ErrorKind::ConnectionReset), Last::Failed),
    (Fault::Error(ErrorKind::ConnectionAborted), Last::Failed),
    (Fault::Error(ErrorKind::BrokenPipe), Last::Failed),
    (Fault::Error(ErrorKind::TimedOut), Last::Failed),
    (Fault::Error(ErrorKind::Other), Last::Failed),
];

#[test]
fn a_link_tells_how_a_read_and_a_write_ended(rt: HostRuntime) {
    for &(fault, last) in &ROWS {
        let mut link = Link::new(Pair {
            reader: FaultyReader::new(b"read", 1, fault),
            writer: FaultyWriter::new(rt.alloc(), 3, 1, fault),
        });
        let moved = (link.read(&mut [0; 8]), link.write(b"sent"));
        let found = (moved, link.reads(), link.writes(), link.has_moved());
        same(&rt, &found, &((None, None), last, last, false), &fault);
    }
    same(&rt, &size_of::<Past>(), &0, &"a past takes no memory");
}
