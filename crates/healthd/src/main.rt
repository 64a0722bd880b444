//! gRPC's health checking service over gRPC-Web.
#![tactic(auto)]

ghost use Rattle.probe_core.specs.Made.{IsAsked};

use clap::ArgMatches;
use clap::error::ErrorKind;
use commands::command::CONTROL_VARIABLE;
use commands::fault::Fault;
use commands::observe::run_observe;
use commands::observe_options::{ObserveOptions, targets_in};
use commands::show_journal::run_journal;
use commands::{ask, body, command, history, replay, serve, status, stop, tell};
use control::is_one_line;
use handover::open_standard_descriptors;
use probe_core::{Depends, FnMaker, Maker, Manual, Probe, ProbeFn, Rule, Threshold};
use running::check::check;
use running::run;
use running::run_options::{RunOptions, Source};
use running::supervisor::Supervisor;
use running::terminal::is_input_terminal;
use std::alloc::AllocError;
use std::fmt::Display;
use std::fs::File;
use std::net::{Net, TcpListener, TcpStream};
use std::process::ExitCode;
use std::rt::{Env, Files};
use std::sync::Wait;
use std::thread::Threads;
use std::time::Clock;
use std::{env, io, process};

/// The status of a command line that is refused.
const REFUSED: u8 = 2;

/// What `run` says before it waits for a script that is typed.
const READS_TERMINAL: &str = "reading a script from standard input, to its end (Ctrl-D)";

fn main(rt: HostRuntime) -> ExitCode {
    // What is opened while one of these is closed gets its number, and what is printed then goes there.
    if let Err(error) = open_standard_descriptors() {
        return failed(&rt, &error);
    }
    match execute(&rt, process::id(rt.process())) {
        Ok(status) => status,
        Err(fault) => failed(&rt, &fault),
    }
}

fn failed<R: Eprint, E: Display>(rt: &R, fault: &E) -> ExitCode {
    let _ = eprintln!(rt; "healthd: {fault}");
    ExitCode::FAILURE
}

/// Runs what the words of this process ask for.
fn execute<R>(rt: &R, process_id: u32) -> Result<ExitCode, Fault>
where
    R: Input
        + Print
        + Eprint
        + Env
        + Files<File = File>
        + Clock
        + AllocGlobal
        + Wait
        + Threads
        + Sync
        + Net<Listener = TcpListener, Stream = TcpStream>,
    R::Dir: Send + Sync,
{
    let words = match words_of(rt) {
        Ok(words) => words,
        Err(error) => return refuse_words(rt, &error),
    };
    let control = env::var(rt, CONTROL_VARIABLE).ok();
    let place = control.as_deref().filter(|place| !place.is_empty());
    let parsed = command::command(rt.alloc(), place)?.try_get_matches_from(words.as_slice());
    match parsed {
        Ok(matches) => run_command(rt, process_id, &matches),
        Err(error) => refuse_parsed(rt, &error),
    }
}

/// Refuses the words, and says what else may name the place that they lack.
fn refuse_parsed<R: Print + Eprint + AllocGlobal>(
    rt: &R,
    error: &clap::Error,
) -> Result<ExitCode, Fault> {
    let status = refuse(rt, error)?;
    if command::lacks_place(rt.alloc(), error)? {
        let _ = eprintln!(rt; "healthd: {CONTROL_VARIABLE} in the environment may name PLACE too");
    }
    Ok(status)
}

/// The words of this process.
fn words_of<R: Env + AllocGlobal>(rt: &R) -> io::Result<Vec<String>> {
    Ok(env::args(rt)?.collect(rt.alloc())?)
}

/// Runs the command that the words name. All probes of the program are made here.
fn run_command<R>(rt: &R, process_id: u32, matches: &ArgMatches<'_>) -> Result<ExitCode, Fault>
where
    R: Input
        + Print
        + Eprint
        + Env
        + Files<File = File>
        + Clock
        + AllocGlobal
        + Wait
        + Threads
        + Sync
        + Net<Listener = TcpListener, Stream = TcpStream>,
    R::Dir: Send + Sync,
{
    let alloc = rt.alloc();
    let make = |rule: Rule| -> Result<Box<dyn Probe + Send>, AllocError>
        ensures { IsAsked (λ probe. (Probe-box probe).rule probe.value) (λ probe. (Probe-box probe).memory probe.value) rule result }
    {
        let probe: Box<dyn Probe + Send> = match rule {
            Rule::Threshold(fall, rise, start) => Box::new(
                alloc,
                Threshold::new(fall, rise, start),
            )?,
            Rule::Manual => Box::new(alloc, Manual::new())?,
            Rule::Depends(mask) => Box::new(alloc, Depends::new(mask))?,
        };
        Ok(probe)
    };
    run_with(rt, make, process_id, matches)
}

/// The same, with the probes that the closure makes.
fn run_with<R, P: Probe + Send, F: ProbeFn<Made = P> + Sync + Drop>(
    rt: &R,
    make: F,
    process_id: u32,
    matches: &ArgMatches<'_>,
) -> Result<ExitCode, Fault>
where
    R: Input
        + Print
        + Eprint
        + Env
        + Files<File = File>
        + Clock
        + AllocGlobal
        + Wait
        + Threads
        + Sync
        + Net<Listener = TcpListener, Stream = TcpStream>,
    R::Dir: Send + Sync,
    requires { F.makes_asked make }
{
    let maker = FnMaker::new(make);
    match matches.subcommand() {
        Some(("body", matches)) => done(body::run(rt, matches)),
        Some(("replay", _)) => done(replay::run(rt, &maker)),
        Some(("serve", matches)) => done(serve::run(rt, &maker, matches)),
        Some(("run", matches)) => {
            run_to_end(rt, &maker, Supervisor::from_env(rt, process_id), matches)
        }
        Some(("ask", matches)) => ask_server(rt, matches),
        Some(("tell", matches)) => tell_server(rt, matches),
        Some(("stop", matches)) => stop_server(rt, matches),
        Some(("status", matches)) => show_status(rt, matches),
        Some(("history", matches)) => show_history(rt, matches),
        Some(("journal", matches)) => show_journal(rt, matches),
        Some(("observe", matches)) => observe_targets(rt, matches),
        _ => Ok(ExitCode::from(REFUSED)),
    }
}

fn done(ended: Result<(), Fault>) -> Result<ExitCode, Fault> {
    ended?;
    Ok(ExitCode::SUCCESS)
}

/// The command `run`, whose faults tell their cause.
fn run_to_end<R, P: Probe + Send, M: Maker<P> + Sync>(
    rt: &R,
    maker: &M,
    supervisor: Supervisor,
    matches: &ArgMatches<'_>,
) -> Result<ExitCode, Fault>
where
    R: Input
        + Print
        + Eprint
        + Files<File = File>
        + Clock
        + AllocGlobal
        + Wait
        + Threads
        + Sync
        + Net<Listener = TcpListener, Stream = TcpStream>,
    R::Dir: Send + Sync,
{
    let options = match RunOptions::read(matches) {
        Ok(options) => options,
        Err(bad) => return refuse(rt, &command::bad_option(rt.alloc(), &bad)?),
    };
    if options.script == Source::StandardInput && is_input_terminal(rt) {
        let _ = eprintln!(rt; "healthd: {READS_TERMINAL}");
    }
    let ended = if matches.get_flag("check") {
        check(rt, maker, options)
    } else {
        run::run(rt, maker, options, supervisor)
    };
    match ended {
        Ok(()) => Ok(ExitCode::SUCCESS),
        Err(failure) => Ok(failed(rt, &failure)),
    }
}

/// The command `ask`, whose faults may tell their cause.
fn ask_server<R>(rt: &R, matches: &ArgMatches<'_>) -> Result<ExitCode, Fault>
where
    R: Print + Eprint + Clock + AllocGlobal + Net<Stream = TcpStream>,
{
    let Some(addr) = ask::addr_in(matches) else {
        let host = matches.get_str("host").unwrap_or("");
        return refuse(rt, &command::bad_host(rt.alloc(), host)?);
    };
    match ask::run(rt, matches, addr) {
        Ok(status) => Ok(ExitCode::from(status)),
        Err(failure) => Ok(failed(rt, &failure)),
    }
}

/// The command `tell`, whose faults tell their cause.
fn tell_server<R>(rt: &R, matches: &ArgMatches<'_>) -> Result<ExitCode, Fault>
where
    R: Input + Print + Eprint + Clock + AllocGlobal + Net<Stream = TcpStream>,
{
    let alloc = rt.alloc();
    let Some(place) = tell::place_in(matches) else {
        let text = matches.get_str("control").unwrap_or("");
        return refuse(rt, &command::bad_place(alloc, text)?);
    };
    let timeout = tell::timeout_in(matches);
    let told = match tell::line_in(alloc, matches)? {
        Some(line) => {
            let bytes = line.as_bytes();
            if !is_one_line(bytes) {
                return refuse(rt, &command::bad_words(alloc)?);
            }
            tell::run_line(rt, place, timeout, bytes)
        }
        None => tell::run_input(rt, place, timeout),
    };
    match told {
        Ok(status) => Ok(ExitCode::from(status)),
        Err(failure) => Ok(failed(rt, &failure)),
    }
}

/// The command `stop`, whose faults tell their cause.
fn stop_server<R>(rt: &R, matches: &ArgMatches<'_>) -> Result<ExitCode, Fault>
where
    R: Print + Eprint + Clock + AllocGlobal + Net<Stream = TcpStream>,
{
    let Some(place) = tell::place_in(matches) else {
        let text = matches.get_str("control").unwrap_or("");
        return refuse(rt, &command::bad_stop_place(rt.alloc(), text)?);
    };
    match stop::run_stop(rt, place, tell::timeout_in(matches)) {
        Ok(status) => Ok(ExitCode::from(status)),
        Err(failure) => Ok(failed(rt, &failure)),
    }
}

/// The command `status`, whose faults tell their cause.
fn show_status<R>(rt: &R, matches: &ArgMatches<'_>) -> Result<ExitCode, Fault>
where
    R: Print + Eprint + Env + Clock + AllocGlobal + Net<Stream = TcpStream>,
{
    let Some(place) = tell::place_in(matches) else {
        let text = matches.get_str("control").unwrap_or("");
        return refuse(rt, &command::bad_status_place(rt.alloc(), text)?);
    };
    let form = status::form_in(rt, matches);
    match status::run_status(rt, place, tell::timeout_in(matches), form) {
        Ok(()) => Ok(ExitCode::SUCCESS),
        Err(failure) => Ok(failed(rt, &failure)),
    }
}

/// The command `history`, whose faults tell their cause.
fn show_history<R>(rt: &R, matches: &ArgMatches<'_>) -> Result<ExitCode, Fault>
where
    R: Print + Eprint + Clock + AllocGlobal + Net<Stream = TcpStream>,
{
    let Some(place) = tell::place_in(matches) else {
        let text = matches.get_str("control").unwrap_or("");
        return refuse(rt, &command::bad_history_place(rt.alloc(), text)?);
    };
    let options = history::options_in(matches);
    match history::run_history(rt, place, tell::timeout_in(matches), options) {
        Ok(()) => Ok(ExitCode::SUCCESS),
        Err(failure) => Ok(failed(rt, &failure)),
    }
}

/// The command `journal`, whose faults tell their cause.
fn show_journal<R>(rt: &R, matches: &ArgMatches<'_>) -> Result<ExitCode, Fault>
where
    R: Print + Eprint + Files + AllocGlobal,
{
    let path = matches.get_str("PATH").unwrap_or("");
    match run_journal(rt, path, matches.get_flag("json")) {
        Ok(()) => Ok(ExitCode::SUCCESS),
        Err(failure) => Ok(failed(rt, &failure)),
    }
}

/// The command `observe`, whose faults tell their cause.
fn observe_targets<R>(rt: &R, matches: &ArgMatches<'_>) -> Result<ExitCode, Fault>
where
    R: Print
        + Eprint
        + Clock
        + AllocGlobal
        + Wait
        + Threads
        + Sync
        + Net<Listener = TcpListener, Stream = TcpStream>,
{
    let alloc = rt.alloc();
    let options = match ObserveOptions::read(matches) {
        Ok(options) => options,
        Err(bad) => return refuse(rt, &command::bad_observe(alloc, bad)?),
    };
    let targets = match targets_in(alloc, matches)? {
        Ok(targets) => targets,
        Err(bad) => return refuse(rt, &command::bad_observe(alloc, bad)?),
    };
    match run_observe(rt, options, &targets) {
        Ok(status) => Ok(ExitCode::from(status)),
        Err(fault) => Ok(failed(rt, &fault)),
    }
}

/// Help goes to standard output with status 0, and what refuses a command line to standard error.
fn refuse<R: Print + Eprint>(rt: &R, error: &clap::Error) -> Result<ExitCode, Fault> {
    if error.kind() == ErrorKind::OutOfMemory {
        return Err(Fault::OutOfMemory);
    }
    let printed = error.print(rt);
    if error.use_stderr() {
        return Ok(ExitCode::from(REFUSED));
    }
    match printed {
        Ok(()) => Ok(ExitCode::SUCCESS),
        Err(_) => Err(Fault::Write),
    }
}

/// A word that is no text has no place in a command line.
fn refuse_words<R: Eprint>(rt: &R, error: &io::Error) -> Result<ExitCode, Fault> {
    if error.kind() == io::ErrorKind::OutOfMemory {
        return Err(Fault::OutOfMemory);
    }
    let _ = eprintln!(rt; "error: invalid UTF-8 was detected in one or more arguments");
    Ok(ExitCode::from(REFUSED))
}
