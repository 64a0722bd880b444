use crate::command::port_in;
use crate::fault::Fault;
use crate::input::read;
use crate::options::{HOST, MAX_WORKERS};
use clap::ArgMatches;
use probe_core::{Maker, Probe};
use script::{Mode, read_script};
use server::{Capacity, Served, SetUpHall, hall_of, serve};
use std::alloc::Global;
use std::io;
use std::io::Write;
use std::net::{Net, TcpListener, TcpStream};
use std::sync::Wait;
use std::thread::Threads;

/// Beside those of the workers: one for the orders, and a spare one.
const MORE_SEATS: u16 = 2;

/// The command `serve`, with the probes that `maker` gives.
pub fn run<R, P: Probe + Send, M: Maker<P>>(
    rt: &R,
    maker: &M,
    matches: &ArgMatches<'_>,
) -> Result<(), Fault>
where
    R: Input
        + Print
        + AllocGlobal
        + Wait
        + Threads
        + Sync
        + Net<Listener = TcpListener, Stream = TcpStream>,
{
    let alloc = rt.alloc();
    let bytes = read(alloc, rt.reader())?;
    let output = serve_script(
        rt,
        alloc,
        maker,
        &bytes,
        port_in(matches),
        capacity_in(matches),
    )?;
    match io::writer(rt).write_all(output.as_bytes()) {
        Ok(()) => Ok(()),
        Err(_) => Err(Fault::Write),
    }
}

/// The numbers are there, since the command line asks for them.
pub fn capacity_in(matches: &ArgMatches<'_>) -> Capacity {
    Capacity {
        workers: matches.get_one::<u16>("workers").unwrap_or(1),
        calls: matches.get_one::<u16>("calls").unwrap_or(1),
    }
}

/// Serves what the script says, and tells how each call ended and how long the journal is.
pub fn serve_script<R, P: Probe + Send, M: Maker<P>>(
    rt: &R,
    alloc: Global,
    maker: &M,
    bytes: &[u8],
    port: u16,
    capacity: Capacity,
) -> Result<String, Fault>
where
    R: Print + Wait + Threads + Sync + Net<Listener = TcpListener, Stream = TcpStream>,
{
    let script = read_script(alloc, bytes, Mode::Serve)?;
    let seats = capacity.workers.min(MAX_WORKERS) + MORE_SEATS;
    let made = hall_of(rt, alloc, script, maker, seats)?;
    let served = serve_at(rt, alloc, made, port, capacity)?;
    let mut output = String::new(alloc);
    served.put(&mut output)?;
    Ok(output)
}

/// Serves at the port over a hall that is set up.
fn serve_at<R, P: Probe + Send>(
    rt: &R,
    alloc: Global,
    made: SetUpHall<P>,
    port: u16,
    capacity: Capacity,
) -> Result<Served<P>, Fault>
where
    R: Print + Wait + Threads + Sync + Net<Listener = TcpListener, Stream = TcpStream>,
{
    let listener = listen(rt, port)?;
    Ok(serve(rt, alloc, made, &listener, capacity)?)
}

/// Binds the port, and prints where it listens before a connection is accepted. Standard output keeps nothing back.
fn listen<R>(rt: &R, port: u16) -> Result<TcpListener, Fault>
where
    R: Print + Net<Listener = TcpListener, Stream = TcpStream>,
{
    let Ok(listener) = TcpListener::bind(rt, (HOST, port)) else {
        return Err(Fault::Bind);
    };
    match println!(rt; "listening {HOST}:{port}") {
        Ok(()) => Ok(listener),
        Err(_) => Err(Fault::Write),
    }
}
