//! A server that cannot begin.

ghost use Rattle.std.specs.Prelude.{◌≤◌};

use crate::same::same;
use crew::CrewWhy;
use probe_core::{Maker, Manual, Rule};
use script::{Mode, read_script};
use server::{Capacity, ServeFault, hall_of, serve};
use std::alloc::{AllocError, Global};
use std::net::{Net, TcpListener, TcpStream};
use std::process::Abort;
use std::sync::Wait;
use std::thread::Threads;

/// It is set up by one change.
const SCRIPT: &[u8] = b"catalogue a -
max 10
register a manual
";

/// Makes services that are set by hand. There is no memory for one of another rule.
struct Manuals;

impl Maker<Manual> for Manuals {
    fn make(&self, rule: Rule) -> Result<Manual, AllocError> {
        match rule {
            Rule::Manual => Ok(Manual::new()),
            _ => Err(AllocError),
        }
    }
}

/// What is wrong with so many workers, who are to serve no call, over a hall of so many seats.
fn fault_of<R>(rt: &R, alloc: Global, workers: u16, seats: u16) -> Option<ServeFault>
where
    R: Abort + Wait + Threads + Sync + Net<Listener = TcpListener, Stream = TcpStream>,
    requires some { 1 ≤ seats }
    requires not_too_many { seats ≤ 1024 }
{
    let listener = TcpListener::bind(rt, ("127.0.0.1", 0u16)).expect(rt, "a listener");
    let script = read_script(alloc, SCRIPT, Mode::Serve).expect(rt, "a script");
    let made = hall_of(rt, alloc, script, &Manuals, seats).expect(rt, "a hall");
    let capacity = Capacity { workers, calls: 0 };
    serve(rt, alloc, made, &listener, capacity).err()
}

/// Workers and seats that make no crew, with the fault.
static REFUSED: [(u16, u16, CrewWhy); 3] = [
    (0, 2, CrewWhy::NoWorkers),
    (1, 1, CrewWhy::NoSeats),
    (2, 2, CrewWhy::NoSeats),
];

#[test]
fn refuses_what_makes_no_crew(rt: HostRuntime) {
    for &(workers, seats, why) in &REFUSED {
        let fault = fault_of(&rt, rt.alloc(), workers, seats);
        same(&rt, &fault, &Some(ServeFault::Crew(why)), &workers);
    }
}
