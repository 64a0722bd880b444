//! A connection over TCP as a job.

use crate::same::{holds, same};
use crew::Job;
use server::{Accept, ends_of};
use std::io::{Read, Write};
use std::net::{Net, TcpListener, TcpStream};
use std::process::Abort;
use std::time::Duration;

const HOST: &str = "127.0.0.1";

/// A port that is listened to, and a client's connection to it.
fn connected<R>(rt: &R) -> (TcpListener, TcpStream)
where
    R: Abort + Net<Listener = TcpListener, Stream = TcpStream>,
{
    let listener = TcpListener::bind(rt, (HOST, 0u16)).expect(rt, "a listener");
    let addr = listener.local_addr().expect(rt, "its address");
    let client = TcpStream::connect(rt, addr).expect(rt, "a client");
    (listener, client)
}

#[test]
fn sends_each_write_at_once_and_waits_half_a_minute(rt: HostRuntime) {
    let (listener, mut client) = connected(&rt);
    let opened = Accept::new(rt.alloc(), &listener).open();
    let (reader, mut writer) = opened.expect(&rt, "a connection");
    let read = reader.stream().read_timeout().expect(&rt, "a time");
    let written = writer.stream().write_timeout().expect(&rt, "a time");
    let patience = Some(Duration::from_secs(30));
    same(&rt, &(read, written), &(patience, patience), &"both");
    let is_at_once = writer.stream().nodelay().expect(&rt, "an option");
    holds(&rt, is_at_once, "no delay");
    // longer than any part of a test takes
    let patience = Some(Duration::from_secs(10));
    client.set_read_timeout(patience).expect(&rt, "patience");
    writer.write_all(b"pong").expect(&rt, "written");
    writer.flush().expect(&rt, "flushed");
    let mut answer = [0u8; 4];
    client.read_exact(&mut answer).expect(&rt, "before its end");
    holds(&rt, answer == *b"pong", "what was written");
}

#[test]
fn gives_up_on_a_client_that_is_silent_and_takes_nothing(rt: HostRuntime) {
    let (listener, _client) = connected(&rt);
    let (stream, _) = listener.accept().expect(&rt, "a connection");
    let ends = ends_of(rt.alloc(), stream, Duration::from_millis(50));
    let (mut reader, mut writer) = ends.expect(&rt, "its ends");
    let mut bytes = [0u8; 4_096];
    holds(&rt, reader.read(&mut bytes).is_err(), "no byte");
    let mut is_taken = true;
    // 64 MiB are more than the two sides keep for one another.
    for _ in 0..16_384u32 {
        is_taken = is_taken && writer.write(&bytes).is_ok();
    }
    holds(&rt, !is_taken, "not taken");
}
