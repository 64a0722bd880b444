ghost use Rattle.std.specs.Prelude.{◌≡◌, Some, IfOk, IfErr, codes};
ghost use Rattle.clap.specs.Words.{found_of, first_value, one_text};
ghost use Rattle.running.specs.RunOptions.{AreAddressesIn, AreBoundsIn, IsAddressIn, IsBadBounds, IsBadControl, IsBadIn, IsBadPlain, IsBadReport, IsFlagIn, IsPlaceIn, IsReadAs, path_of, text_of};

use crate::bounds::{Bounds, bounds_of};
use clap::ArgMatches;
use control::Place;
use std::fmt;
use std::net::SocketAddr;
use std::str::FromStr;

/// The longest path of a socket, in bytes.
const MAX_PATH_LEN: usize = 107;

/// Where the script of a run is read from.
#[derive(Clone, Copy, Debug, PartialEq, Eq)]
pub enum Source<'a> {
    StandardInput,
    File(&'a str),
}

impl fmt::Display for Source<'_> {
    fn fmt<W: fmt::Write>(&self, f: &mut fmt::Formatter<W>) -> fmt::Result {
        match *self {
            Source::StandardInput => f.write_str("standard input"),
            Source::File(path) => f.write_str(path),
        }
    }
}

/// What the command `run` is told.
#[derive(Clone, Copy)]
pub struct RunOptions<'a> {
    pub listen: SocketAddr,
    /// Where plain requests are answered, if they are.
    pub plain: Option<SocketAddr>,
    /// Where changes are asked for, if they are.
    pub control: Option<Place<'a>>,
    /// Where findings are reported, if they are.
    pub report: Option<Place<'a>>,
    pub script: Source<'a>,
    /// The file that the history is kept in, if it is.
    pub journal: Option<&'a str>,
    /// How many event loops. Without it there are as many as processors.
    pub threads: Option<u16>,
    pub bounds: Bounds,
    /// Whether there is no log on standard error.
    pub is_quiet: bool,
}

/// Why the options of a run are refused, where each by itself is one.
#[derive(Clone, Copy)]
pub enum BadOption<'a> {
    /// The text is no address with a port.
    Listen(&'a str),
    /// The same of the place of plain requests.
    Plain(&'a str),
    /// The text is no loopback address with a port, and no path of a socket.
    Control(&'a str),
    /// The same of the place where findings are reported.
    Report(&'a str),
    /// More Watches than connections.
    Watches { watches: u32, connections: u32 },
}

impl fmt::Display for BadOption<'_> {
    fn fmt<W: fmt::Write>(&self, f: &mut fmt::Formatter<W>) -> fmt::Result {
        match *self {
            BadOption::Listen(text) => write!(
                f,
                "invalid value '{text}' for '--listen <ADDR>': not an address and a port"
            ),
            BadOption::Plain(text) => write!(
                f,
                "invalid value '{text}' for '--plain <ADDR>': not an address and a port"
            ),
            BadOption::Control(text) => {
                let why = why_no_place(text);
                write!(f, "invalid value '{text}' for '--control <PLACE>': {why}")
            }
            BadOption::Report(text) => {
                let why = why_no_place(text);
                write!(f, "invalid value '{text}' for '--report <PLACE>': {why}")
            }
            BadOption::Watches {
                watches,
                connections,
            } => write!(
                f,
                "invalid value '{watches}' for '--watches <W>': more than the {connections} connections"
            ),
        }
    }
}

impl<'a> RunOptions<'a> {
    /// Reads what the command line has, where each number is in its range.
    pub fn read(matches: &ArgMatches<'a>) -> Result<RunOptions<'a>, BadOption<'a>>
        ensures addresses { IfOk result (λ options. AreAddressesIn
            ⟦<SocketAddr as FromStr>⟧.from_str_gives (found_of matches.now) options.listen
            options.plain) }
        ensures control { IfOk result (λ options. IsPlaceIn (first_value (found_of matches.now)
            (codes "control")) options.control) }
        ensures report { IfOk result (λ options. IsPlaceIn (first_value (found_of matches.now)
            (codes "report")) options.report) }
        ensures script { IfOk result (λ options. path_of options.script ≡ first_value
            (found_of matches.now) (codes "script")) }
        ensures journal { IfOk result (λ options. text_of options.journal ≡ first_value
            (found_of matches.now) (codes "journal")) }
        ensures threads { IfOk result (λ options. IsReadAs ⟦<u16 as FromStr>⟧.from_str_gives
            (found_of matches.now) (codes "threads") options.threads) }
        ensures bounds { IfOk result (λ options. AreBoundsIn ⟦<u32 as FromStr>⟧.from_str_gives
            (found_of matches.now) options.bounds) }
        ensures quiet { IfOk result (λ options. IsFlagIn (one_text (found_of matches.now)
            (codes "quiet")) options.is_quiet) }
        ensures bad { IfErr result (IsBadIn ⟦<SocketAddr as FromStr>⟧.from_str_gives ⟦<u32 as FromStr>⟧.from_str_gives (found_of matches.now)) }
    {
        let Some(listen) = matches.get_one::<SocketAddr>("listen") else {
            return Err(BadOption::Listen(matches.get_str("listen").unwrap_or("")));
        };
        let plain = plain_in(matches)?;
        let control = control_in(matches)?;
        let report = report_in(matches)?;
        let bounds = bounds_in(matches)?;
        Ok(RunOptions {
            listen,
            plain,
            control,
            report,
            script: source_in(matches),
            journal: matches.get_str("journal"),
            threads: matches.get_one::<u16>("threads"),
            bounds,
            is_quiet: matches.get_flag("quiet"),
        })
    }
}

/// The address of the place of plain requests, if the command line has one.
fn plain_in<'a>(matches: &ArgMatches<'a>) -> Result<Option<SocketAddr>, BadOption<'a>>
    ensures plain { IfOk result (IsAddressIn ⟦<SocketAddr as FromStr>⟧.from_str_gives
        (found_of matches.now) (codes "plain")) }
    ensures bad { IfErr result (IsBadPlain ⟦<SocketAddr as FromStr>⟧.from_str_gives
        (found_of matches.now)) }
{
    match (
        matches.get_one::<SocketAddr>("plain"),
        matches.get_str("plain"),
    ) {
        (None, Some(text)) => Err(BadOption::Plain(text)),
        (addr, _) => Ok(addr),
    }
}

fn source_in<'a>(matches: &ArgMatches<'a>) -> Source<'a>
    ensures { path_of result ≡ first_value (found_of matches.now) (codes "script") }
{
    match matches.get_str("script") {
        Some(path) => Source::File(path),
        None => Source::StandardInput,
    }
}

/// The place where changes are asked for, if the command line names one.
pub fn control_in<'a>(matches: &ArgMatches<'a>) -> Result<Option<Place<'a>>, BadOption<'a>>
    ensures control { IfOk result (IsPlaceIn (first_value (found_of matches.now)
        (codes "control"))) }
    ensures bad { IfErr result (IsBadControl (found_of matches.now)) }
{
    let Some(text) = matches.get_str("control") else {
        return Ok(None);
    };
    match Place::read(text) {
        Some(place) => Ok(Some(place)),
        None => Err(BadOption::Control(text)),
    }
}

/// The place where findings are reported, if the command line names one.
pub fn report_in<'a>(matches: &ArgMatches<'a>) -> Result<Option<Place<'a>>, BadOption<'a>>
    ensures report { IfOk result (IsPlaceIn (first_value (found_of matches.now) (codes "report"))) }
    ensures bad { IfErr result (IsBadReport (found_of matches.now)) }
{
    let Some(text) = matches.get_str("report") else {
        return Ok(None);
    };
    match Place::read(text) {
        Some(place) => Ok(Some(place)),
        None => Err(BadOption::Report(text)),
    }
}

/// A number that clap has read is in its range, so that only Watches can be too many.
fn bounds_in<'a>(matches: &ArgMatches<'_>) -> Result<Bounds, BadOption<'a>>
    ensures bounds { IfOk result (AreBoundsIn ⟦<u32 as FromStr>⟧.from_str_gives
        (found_of matches.now)) }
    ensures bad { IfErr result (IsBadBounds ⟦<u32 as FromStr>⟧.from_str_gives
        (found_of matches.now)) }
{
    let connections = matches.get_one::<u32>("connections").unwrap_or(1);
    let watches = matches.get_one::<u32>("watches");
    match bounds_of(connections, watches) {
        Some(bounds) => Ok(bounds),
        None => Err(BadOption::Watches {
            watches: watches.unwrap_or(0),
            connections,
        }),
    }
}

/// Why a text is no place for sessions.
fn why_no_place(text: &str) -> &'static str {
    if text.starts_with('/') && text.len() > MAX_PATH_LEN {
        "longer than 107 bytes, the most that the path of a socket may have"
    } else {
        "not a loopback address and a port, and no path of a socket that begins with '/'"
    }
}
