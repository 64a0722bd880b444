use crate::help_texts::{
    HISTORY_HELP, JOURNAL_HELP, OBSERVE_HELP, REPLAY_HELP, SCRIPT_HELP, STATUS_HELP, STOP_HELP,
    TELL_HELP,
};
use crate::no_place::why_no_place;
use crate::observe_options::BadObserve;
use crate::options::{
    ASK, BODY, HISTORY, JOURNAL, OBSERVE, RUN, SERVE, STATUS, STOP, TELL, asked_place, with_options,
};
use clap::error::ErrorKind;
use clap::{ArgMatches, Command};
use plain::VERSION;
use std::alloc::{AllocError, Global};
use std::fmt::Display;

/// The environment variable that says where a running server is asked, for the commands that are not told.
pub const CONTROL_VARIABLE: &str = "HEALTHD_CONTROL";

/// The command line. A command that is not listed here is refused with clap's text. A running server is asked at this place, if there is
/// one, where a command is told no other.
pub fn command<'a>(alloc: Global, control: Option<&'a str>) -> Result<Command<'a>, AllocError> {
    let healthd = with_scripts(alloc);
    let healthd = add(healthd, run(alloc));
    let healthd = add(healthd, ask(alloc));
    let healthd = add(healthd, tell(alloc, control));
    let healthd = add(healthd, stop(alloc, control));
    let healthd = add(healthd, status(alloc, control));
    let healthd = add(healthd, history(alloc, control));
    let healthd = add(healthd, journal(alloc));
    add(healthd, observe(alloc, control))
}

/// The program with one command more, once there is one.
fn add<'a>(
    program: Result<Command<'a>, AllocError>,
    made: Result<Command<'a>, AllocError>,
) -> Result<Command<'a>, AllocError> {
    program?.subcommand(made?)
}

/// The program, with the commands that read all that they are told from their words and from standard input.
fn with_scripts<'a>(alloc: Global) -> Result<Command<'a>, AllocError> {
    let healthd = Command::new(alloc, "healthd")
        .about("A gRPC health checking server (gRPC-Web over HTTP/1.1)")
        .version(VERSION)
        .subcommand_required(true);
    let replay = Command::new(alloc, "replay")
        .about("Run the script on standard input, and print what each of its lines comes to")
        .after_help(REPLAY_HELP);
    add(add(add(Ok(healthd), body(alloc)), Ok(replay)), serve(alloc))
}

fn body<'a>(alloc: Global) -> Result<Command<'a>, AllocError> {
    let body = Command::new(alloc, "body").about(
        "Answer the body of a Check's request with the body of its response",
    );
    with_options(alloc, body, &BODY)
}

fn serve<'a>(alloc: Global) -> Result<Command<'a>, AllocError> {
    let serve = Command::new(alloc, "serve").about(
        "Serve calls on 127.0.0.1 by the script on standard input, and print how each ended",
    );
    with_options(alloc, serve, &SERVE)
}

fn run<'a>(alloc: Global) -> Result<Command<'a>, AllocError> {
    let run = Command::new(alloc, "run")
        .about("Serve calls, with services that a script sets up, until told to stop")
        .after_help(SCRIPT_HELP);
    with_options(alloc, run, &RUN)
}

/// The command line of a run that is refused, with the text that clap has for such.
pub fn bad_option<B: Display>(alloc: Global, bad: &B) -> Result<clap::Error, AllocError> {
    let message = format!(in alloc; "{bad}")?;
    refused(run(alloc)?, "healthd run", &message)
}

/// A command line that is refused for this reason, with the text that clap has for such.
fn refused(
    command: Command<'_>,
    name: &'static str,
    message: &str,
) -> Result<clap::Error, AllocError> {
    command
        .bin_name(name)?
        .error(ErrorKind::ValueValidation, message)
}

fn ask<'a>(alloc: Global) -> Result<Command<'a>, AllocError> {
    let ask = Command::new(alloc, "ask").about("Ask for the status of a service, and print it");
    with_options(alloc, ask, &ASK)
}

/// The command line of an `ask` whose host is refused, with the text that clap has for such.
pub fn bad_host(alloc: Global, host: &str) -> Result<clap::Error, AllocError> {
    let message = format!(in alloc;
        "invalid value '{host}' for '--host <ADDR>': not an IP address"
    )?;
    refused(ask(alloc)?, "healthd ask", &message)
}

/// A command that asks a running server.
fn asking<'a>(
    alloc: Global,
    control: Option<&'a str>,
    name: &'static str,
    about: &'static str,
    after: &'static str,
) -> Result<Command<'a>, AllocError> {
    Command::new(alloc, name)
        .about(about)
        .after_help(after)
        .arg(asked_place(alloc, control))
}

fn tell<'a>(alloc: Global, control: Option<&'a str>) -> Result<Command<'a>, AllocError> {
    let tell = asking(
        alloc,
        control,
        "tell",
        "Send lines to a server that takes changes while it runs, and print its answers",
        TELL_HELP,
    )?;
    with_options(alloc, tell, &TELL)
}

fn stop<'a>(alloc: Global, control: Option<&'a str>) -> Result<Command<'a>, AllocError> {
    let stop = asking(
        alloc,
        control,
        "stop",
        "Tell a server to stop, and wait until it has",
        STOP_HELP,
    )?;
    with_options(alloc, stop, &STOP)
}

fn status<'a>(alloc: Global, control: Option<&'a str>) -> Result<Command<'a>, AllocError> {
    let status = asking(
        alloc,
        control,
        "status",
        "Show each service's status, since when, and why",
        STATUS_HELP,
    )?;
    with_options(alloc, status, &STATUS)
}

fn history<'a>(alloc: Global, control: Option<&'a str>) -> Result<Command<'a>, AllocError> {
    let history = asking(
        alloc,
        control,
        "history",
        "Print the changes that a server has made, the oldest first",
        HISTORY_HELP,
    )?;
    with_options(alloc, history, &HISTORY)
}

/// The command line of a `tell` that is refused for this reason, with the text that clap has for such.
fn bad_tell(alloc: Global, message: &str) -> Result<clap::Error, AllocError> {
    refused(tell(alloc, None)?, "healthd tell", message)
}

/// The text is no place of a server that takes changes.
pub fn bad_place(alloc: Global, text: &str) -> Result<clap::Error, AllocError> {
    bad_tell(alloc, &no_place(alloc, text)?)
}

/// The same, where `stop` is to tell it.
pub fn bad_stop_place(alloc: Global, text: &str) -> Result<clap::Error, AllocError> {
    let message = no_place(alloc, text)?;
    refused(stop(alloc, None)?, "healthd stop", &message)
}

/// The same, where `status` is to ask there.
pub fn bad_status_place(alloc: Global, text: &str) -> Result<clap::Error, AllocError> {
    let message = no_place(alloc, text)?;
    refused(status(alloc, None)?, "healthd status", &message)
}

/// The same, where `history` is to ask there.
pub fn bad_history_place(alloc: Global, text: &str) -> Result<clap::Error, AllocError> {
    let message = no_place(alloc, text)?;
    refused(history(alloc, None)?, "healthd history", &message)
}

fn no_place(alloc: Global, text: &str) -> Result<String, AllocError> {
    let why = why_no_place(text);
    format!(in alloc; "invalid value '{text}' for '--control <PLACE>': {why}")
}

/// Whether a command line is refused since neither it nor the environment says where a server is asked.
pub fn lacks_place(alloc: Global, error: &clap::Error) -> Result<bool, AllocError> {
    if error.kind() != ErrorKind::MissingRequiredArgument {
        return Ok(false);
    }
    let text = error.to_string(alloc)?;
    Ok(text.contains("\n  --control <PLACE>\n"))
}

/// The words are more than one line.
pub fn bad_words(alloc: Global) -> Result<clap::Error, AllocError> {
    bad_tell(
        alloc,
        "invalid value for '[WORD]...': a line feed within a word",
    )
}

/// The port that a command is given, which it has to be.
pub fn port_in(matches: &ArgMatches<'_>) -> u16 {
    matches.get_one::<u16>("port").unwrap_or(0)
}

fn observe<'a>(alloc: Global, control: Option<&'a str>) -> Result<Command<'a>, AllocError> {
    let observe = asking(
        alloc,
        control,
        "observe",
        "Look at targets, and report what each look found to a server",
        OBSERVE_HELP,
    )?;
    with_options(alloc, observe, &OBSERVE)
}

/// The command line of an `observe` that is refused, with the text that clap has for such.
pub fn bad_observe(alloc: Global, bad: BadObserve<'_>) -> Result<clap::Error, AllocError> {
    let message = format!(in alloc; "{bad}")?;
    refused(observe(alloc, None)?, "healthd observe", &message)
}

fn journal<'a>(alloc: Global) -> Result<Command<'a>, AllocError> {
    let journal = Command::new(alloc, "journal")
        .about("Print the changes in a journal's file, the oldest first")
        .after_help(JOURNAL_HELP);
    with_options(alloc, journal, &JOURNAL)
}
