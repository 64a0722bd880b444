use crate::observe_options::ObserveOptions;
use control::Place;
use observing::{
    Note, ObserveFault, Observed, Sink, Target, Verdict, exit_status, observe, observe_once,
};
use safe_text::SafeText;
use std::io;
use std::net::{Net, TcpListener, TcpStream};
use std::sync::Wait;
use std::thread::Threads;
use std::time::Clock;

/// The exit status of an observer that nobody reads any more.
const UNREAD: u8 = 1;

/// The command `observe`. With `--once` it prints what each target was, in their order; else it goes on until its process is ended. It
/// tells the exit status.
pub fn run_observe<R>(
    rt: &R,
    options: ObserveOptions<'_>,
    targets: &[Target],
) -> Result<u8, ObserveFault>
where
    R: Print
        + Eprint
        + Wait
        + Threads
        + Clock
        + AllocGlobal
        + Sync
        + Net<Listener = TcpListener, Stream = TcpStream>,
{
    let ObserveOptions {
        place,
        terms,
        is_once,
        is_verbose,
    } = options;
    let mut printer = Printer {
        rt,
        place,
        is_verbose: is_verbose && !is_once,
        is_unread: false,
        has_noted: false,
    };
    if !is_once {
        observe(rt, place, targets, terms, &mut printer)?;
        return Ok(UNREAD);
    }
    let observed = observe_once(rt, place, targets, terms, &mut printer)?;
    let untold = observed.telling.untold;
    if untold > 0 && !printer.has_noted {
        let _ = eprintln!(rt; "healthd: looks not told to {place}: {untold}");
    }
    print_observed(rt, targets, &observed)
}

/// Prints what each target was, in their order. It tells the exit status.
fn print_observed<R: Print>(
    rt: &R,
    targets: &[Target],
    observed: &Observed,
) -> Result<u8, ObserveFault> {
    let Observed { verdicts, telling } = observed;
    for (target, verdict) in targets.iter().zip(verdicts.iter()) {
        print_look(rt, target, *verdict)?;
    }
    Ok(exit_status(verdicts, telling.untold == 0))
}

/// What a look came to, in a line.
fn print_look<R: Print>(rt: &R, target: &Target, verdict: Verdict) -> io::Result<()> {
    let name = target.name();
    println!(rt; "{name} {verdict}")
}

/// Prints looks to standard output where that is asked for, and what else there is to know to standard error.
#[derive(Drop)]
struct Printer<'a, R> {
    rt: &'a R,
    place: Place<'a>,
    is_verbose: bool,
    /// Whether standard output takes no more.
    is_unread: bool,
    /// Whether standard error has had a note.
    has_noted: bool,
}

impl<R: Print + Eprint> Sink for Printer<'_, R> {
    fn looked(&mut self, target: &Target, verdict: Verdict) {
        if self.is_verbose && print_look(self.rt, target, verdict).is_err() {
            self.is_unread = true;
        }
    }

    fn noted(&mut self, targets: &[Target], note: &Note) {
        let (rt, place) = (self.rt, self.place);
        self.has_noted = true;
        let _ = match note {
            Note::Refused(number, answer) => match targets.get(*number) {
                Some(target) => {
                    let (name, answer) = (target.name(), SafeText(answer));
                    eprintln!(rt; "healthd: {place} answered {answer} to reports of {name}")
                }
                None => Ok(()),
            },
            Note::Lost(kind) => eprintln!(rt; "healthd: {place}: {kind}"),
            Note::Found => eprintln!(rt; "healthd: {place} is told again"),
        };
    }

    fn goes_on(&self) -> bool {
        !self.is_unread
    }
}
