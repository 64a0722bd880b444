ghost use Rattle.std.specs.Prelude.{◌≡◌, ◌≤◌, ◌↔◌, ◌⊎◌, false, IfNone, IfOk, IfSome, length};
ghost use Rattle.commands.specs.Expect.{IsExpected};

use crate::ask_failure::AskFailure;
use crate::command::port_in;
use crate::deadline::{Deadline, TimedStream};
use crate::expect::{exit_status, status_spelled};
use crate::fault::Fault;
use crate::status_printer::{StatusPrinter, put_status};
use clap::ArgMatches;
use clap::parser::ValueSource;
use client::{AskFault, Ended, Lent, Listener, Told, ask, watch_through};
use control::Cause;
use safe_text::printable;
use std::alloc::{AllocError, Global};
use std::fmt::Write as _;
use std::io;
use std::io::{BufReader, ErrorKind, Read, Write};
use std::net::{IpAddr, Net, SocketAddr, TcpStream};
use std::time::{Clock, Duration};
use web_call::Method;

/// The longest name that is asked for, in bytes.
const MAX_NAME_LEN: usize = 1_048_576;

/// The command `ask`, which asks the server that listens there. It tells the exit status.
pub fn run<R>(rt: &R, matches: &ArgMatches<'_>, addr: SocketAddr) -> Result<u8, AskFailure>
where
    R: Print + Clock + AllocGlobal + Net<Stream = TcpStream>,
    ensures one_of_two { IfOk result (λ status. (status ≡ 0) ⊎ (status ≡ 3)) }
{
    match ask_and_print(rt, matches, addr) {
        Ok(status) => Ok(status),
        Err(failure) if tells_cause(matches) => Err(failure),
        Err(failure) => Err(AskFailure::Plain(failure.plain())),
    }
}

/// Whether a failure tells its cause: where one of the options is given that came with it. Without them the texts stay as they were.
pub fn tells_cause(matches: &ArgMatches<'_>) -> bool {
    ["host", "timeout", "expect"].iter().any(|id| matches.value_source(id)
        == Some(ValueSource::CommandLine))
}

fn ask_and_print<R>(rt: &R, matches: &ArgMatches<'_>, addr: SocketAddr) -> Result<u8, AskFailure>
where
    R: Print + Clock + AllocGlobal + Net<Stream = TcpStream>,
    ensures one_of_two { IfOk result (λ status. (status ≡ 0) ⊎ (status ≡ 3)) }
{
    let alloc = rt.alloc();
    let name = name_in(matches);
    if name.len() > MAX_NAME_LEN {
        return Err(AskFailure::Plain(Fault::NameTooLong));
    }
    let (method, most) = call_in(matches);
    let question = Question { method, name, most };
    let mut output = io::writer(rt);
    let told = ask_aloud(rt, alloc, addr, timeout_in(matches), &question, &mut output)?;
    let expected = expected_in(matches);
    Ok(print_rest(alloc, &mut output, method, expected, &told)?)
}

/// Prints what is not printed yet of what was told. It tells the exit status, where a status of this name may be expected.
fn print_rest<O: Write>(
    alloc: Global,
    output: &mut O,
    method: Method,
    expected: Option<&str>,
    told: &Told,
) -> Result<u8, Fault>
    ensures one_of_two { IfOk result (λ status. (status ≡ 0) ⊎ (status ≡ 3)) }
{
    match method {
        Method::Check => print_told(alloc, output, method, expected, told),
        Method::Watch => print_end(alloc, output, expected, told),
    }
}

/// Asks the server that listens there, and prints each status of a Watch as it comes.
fn ask_aloud<R: Clock + Net<Stream = TcpStream>, O: Write>(
    rt: &R,
    alloc: Global,
    addr: SocketAddr,
    timeout: Option<Duration>,
    question: &Question<'_>,
    output: &mut O,
) -> Result<Told, AskFailure> {
    let mut printer = StatusPrinter::new(alloc, output);
    let told = match timeout {
        Some(timeout) => ask_within(rt, alloc, addr, timeout, question, &mut printer),
        None => ask_for_good(rt, alloc, addr, question, &mut printer),
    };
    match printer.fault() {
        Some(fault) => Err(AskFailure::Plain(fault)),
        None => told,
    }
}

/// The name of the status that is expected, if one is.
fn expected_in<'a>(matches: &ArgMatches<'a>) -> Option<&'a str> {
    let text = matches.get_str("expect")?;
    match status_spelled(text) {
        Some(name) => Some(name),
        None => Some(text),
    }
}

/// Prints what was told. It tells the exit status, where a status of this name may be expected.
pub fn print_told<O: Write>(
    alloc: Global,
    output: &mut O,
    method: Method,
    expected: Option<&str>,
    told: &Told,
) -> Result<u8, Fault>
    ensures nothing { IfNone expected.entry (IfOk result (λ status. status ≡ 0)) }
    ensures met { IfSome expected.entry (λ name.
        IfOk result (λ status. (status ≡ 0) ↔ IsExpected method name.now told.now)) }
    ensures one_of_two { IfOk result (λ status. (status ≡ 0) ⊎ (status ≡ 3)) }
{
    let text = output_of(alloc, told)?;
    match output.write_all(&text) {
        Ok(()) => Ok(exit_status(method, expected, told)),
        Err(_) => Err(Fault::Write),
    }
}

/// Prints how a Watch ended, whose statuses are printed. It tells the exit status, where a status of this name may be expected.
pub fn print_end<O: Write>(
    alloc: Global,
    output: &mut O,
    expected: Option<&str>,
    told: &Told,
) -> Result<u8, Fault>
    ensures nothing { IfNone expected.entry (IfOk result (λ status. status ≡ 0)) }
    ensures met { IfSome expected.entry (λ name.
        IfOk result (λ status. (status ≡ 0) ↔ IsExpected Method.Watch name.now told.now)) }
    ensures one_of_two { IfOk result (λ status. (status ≡ 0) ⊎ (status ≡ 3)) }
{
    let text = end_of(alloc, told)?;
    match output.write_all(&text) {
        Ok(()) => Ok(exit_status(Method::Watch, expected, told)),
        Err(_) => Err(Fault::Write),
    }
}

/// Where the server listens, unless the host is no IP address.
pub fn addr_in(matches: &ArgMatches<'_>) -> Option<SocketAddr> {
    let host = matches.get_one::<IpAddr>("host")?;
    Some(SocketAddr::new(host, port_in(matches)))
}

/// The service that is asked for: the server as a whole where none is named.
pub fn name_in<'a>(matches: &ArgMatches<'a>) -> &'a str {
    matches.get_str("name").unwrap_or("")
}

/// A Watch and the most statuses of it, or a Check.
pub fn call_in(matches: &ArgMatches<'_>) -> (Method, u32)
    ensures { 1 ≤ result.1 }
{
    match matches.get_one::<u32>("watch") {
        Some(most) => (Method::Watch, most.max(1)),
        None => (Method::Check, 1),
    }
}

/// How long the whole call may take, if there is a limit.
pub fn timeout_in(matches: &ArgMatches<'_>) -> Option<Duration> {
    let seconds = matches.get_one::<u16>("timeout")?;
    Some(Duration::from_secs(u64::from(seconds)))
}

/// What a server is asked: a Check of a service, or a Watch of at most so many of its statuses.
#[derive(Drop)]
pub struct Question<'a> {
    pub method: Method,
    pub name: &'a str,
    pub most: u32,
    ghost short: { length name.now ≤ 1048576 },
    ghost some: { 1 ≤ most },
}

/// Asks over a stream, and tells a listener each status of a Watch as it comes.
fn put<I: Read, O: Write, L: Listener>(
    alloc: Global,
    reader: &mut I,
    writer: &mut O,
    question: &Question<'_>,
    listener: &mut L,
) -> Result<Told, AskFault>
    requires wants { L.has_enough listener.old ≡ false }
{
    let Question {
        method,
        name,
        most,
        ..
    } = *question;
    match method {
        Method::Check => ask(alloc, reader, writer, method, name, most),
        Method::Watch => {
            let mut reader = Lent::new(reader);
            let mut writer = Lent::new(writer);
            watch_through(alloc, &mut reader, &mut writer, name, most, listener)
        },
    }
}

/// Asks the server that listens there, and waits without limit.
pub fn ask_for_good<R: Net<Stream = TcpStream>, L: Listener>(
    rt: &R,
    alloc: Global,
    addr: SocketAddr,
    question: &Question<'_>,
    listener: &mut L,
) -> Result<Told, AskFailure>
    requires wants { L.has_enough listener.old ≡ false }
{
    let stream = match TcpStream::connect(rt, addr) {
        Ok(stream) => stream,
        Err(error) => return Err(AskFailure::Connect(addr, Cause::from(error))),
    };
    let Ok(mut reader) = BufReader::new(alloc, &stream) else {
        return Err(AskFailure::Plain(Fault::OutOfMemory));
    };
    let mut writer = &stream;
    Ok(put(alloc, &mut reader, &mut writer, question, listener)?)
}

/// Asks the server that listens there, and gives up where the whole call takes longer.
pub fn ask_within<R: Clock + Net<Stream = TcpStream>, L: Listener>(
    rt: &R,
    alloc: Global,
    addr: SocketAddr,
    timeout: Duration,
    question: &Question<'_>,
    listener: &mut L,
) -> Result<Told, AskFailure>
    requires wants { L.has_enough listener.old ≡ false }
{
    let late = AskFailure::TimedOut(timeout.as_secs());
    let Ok(deadline) = Deadline::after(rt, timeout) else {
        return Err(late);
    };
    let stream = connect_by(rt, addr, deadline, late)?;
    let Ok(mut reader) = BufReader::new(alloc, TimedStream::new(rt, &stream, deadline)) else {
        return Err(AskFailure::Plain(Fault::OutOfMemory));
    };
    let mut writer = TimedStream::new(rt, &stream, deadline);
    put_in_time(alloc, &mut reader, &mut writer, question, listener, late)
}

/// Asks over a stream that is given up at its deadline, past which it is too late.
fn put_in_time<R: Clock, L: Listener>(
    alloc: Global,
    reader: &mut BufReader<TimedStream<'_, R>>,
    writer: &mut TimedStream<'_, R>,
    question: &Question<'_>,
    listener: &mut L,
    late: AskFailure,
) -> Result<Told, AskFailure>
    requires wants { L.has_enough listener.old ≡ false }
{
    match put(alloc, reader, writer, question, listener) {
        Ok(told) => Ok(told),
        Err(_) if reader.get_ref().is_late() || writer.is_late() => Err(late),
        Err(fault) => Err(AskFailure::Plain(Fault::Ask(fault))),
    }
}

/// Connects before a deadline, past which it is too late.
fn connect_by<R: Clock + Net<Stream = TcpStream>>(
    rt: &R,
    addr: SocketAddr,
    deadline: Deadline,
    late: AskFailure,
) -> Result<TcpStream, AskFailure> {
    match connect_in_time(rt, addr, deadline) {
        Ok(stream) => Ok(stream),
        Err(error) if error.kind() == ErrorKind::TimedOut => Err(late),
        Err(error) => Err(AskFailure::Connect(addr, Cause::from(error))),
    }
}

fn connect_in_time<R: Clock + Net<Stream = TcpStream>>(
    rt: &R,
    addr: SocketAddr,
    deadline: Deadline,
) -> io::Result<TcpStream> {
    TcpStream::connect_timeout(rt, &addr, deadline.left(rt)?)
}

/// A line for each status, and one for the end of the call if it has one.
pub fn output_of(alloc: Global, told: &Told) -> Result<Vec<u8>, AllocError> {
    let mut output = String::new(alloc);
    for status in &told.statuses {
        put_status(&mut output, *status)?;
    }
    with_end(output, told)
}

/// A line for the end of the call, if it has one.
fn end_of(alloc: Global, told: &Told) -> Result<Vec<u8>, AllocError> {
    with_end(String::new(alloc), told)
}

fn with_end(output: String, told: &Told) -> Result<Vec<u8>, AllocError> {
    match &told.end {
        Some(ended) => with_code(output, ended),
        None => Ok(output.into_bytes()),
    }
}

fn with_code(mut output: String, ended: &Ended) -> Result<Vec<u8>, AllocError> {
    let code = ended.code;
    if code == 0 {
        output.push_str("grpc-status 0\n")?;
        return Ok(output.into_bytes());
    }
    let text = printable(*output.allocator(), &ended.text)?;
    writeln!(output, "grpc-status {code} {text}")?;
    Ok(output.into_bytes())
}
