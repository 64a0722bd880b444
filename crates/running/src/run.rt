ghost use Rattle.std.specs.Prelude.{◌≡◌, ◌≤◌, ◌<◌, ◌+◌, ◌++◌, List, Option, None, Some, IfOk, IfErr, IfSome, IsSome, true, codes, decimal, length, string_bytes, vec_len};
ghost use Rattle.desk_core.specs.declared.call.Call.{Call};
ghost use Rattle.desk_core.specs.Past.{past};
ghost use Rattle.hall.specs.Seats.{new_seats};
ghost use Rattle.server.specs.Setup.{AreSetUp};
ghost use Rattle.live_run.specs.Loops.{AllEndedEmpty};
ghost use Rattle.live_run.specs.WholeRun.{AreNone, HasRun, HasRunLoops, HaveEnded, HaveTerms};
ghost use Rattle.live_run.specs.declared.loops_fault.LoopsFault.TheVariants.{NoMemory};
ghost use Rattle.running.specs.declared.run_failure.RunFailure.TheVariants.{OutOfMemory, Refused};
ghost use Rattle.running.specs.Expected.{IsExpectedBy};
ghost use Rattle.running.specs.Run.{AreMadeAlone, EndsSetUp, IsSetUpBy, IsWhollySetUp};

use crate::begun::{Begun, Setting, begin};
use crate::bounds::{Bounds, MAX_LOOPS};
use crate::byte_order_mark::without_mark;
use crate::expected::{entries_of, expected_in, first_failure};
use crate::files::{bounds_within, reserved};
use crate::journaled::set_up_over;
use crate::listening_lines::print_line;
use crate::registered::warn_of_script;
use crate::run_failure::{RunFailure, failure_by, script_failure};
use crate::run_options::{RunOptions, Source};
use crate::signalled::serve_signalled;
use crate::supervisor::Supervisor;
use chronicle::{Who, wall_micros};
use control_server::SESSION_SEATS;
use desk_core::{Keep, KeepAll, KeepMany};
use handover::StopSignals;
use live_run::{Counters, LoopsFault, Ran, RefusedLine, SessionPlaces, first_refused, run_live};
use live_server::{EventServer, News};
use open_files::open_files;
use probe_core::{Maker, Probe};
use script::{Expected, Mode, read_script, read_script_bytes};
use server::{SetUpHall, hall_of};
use std::alloc::{AllocError, Global};
use std::fs::File;
use std::net::{Net, TcpListener, TcpStream};
use std::rt::Files;
use std::sync::{Arc, Wait};
use std::thread::Threads;
use std::time::Clock;
use std::{fs, thread};
use watchdog::Expectations;

/// The command `run`, with the probes that `maker` gives. It ends where a session asks for it, or a signal ends the process.
pub fn run<'a, R, P: Probe + Send, M: Maker<P> + Sync>(
    rt: &R,
    maker: &M,
    options: RunOptions<'a>,
    supervisor: Supervisor,
) -> Result<(), RunFailure<'a>>
where
    R: Input
        + Print
        + Eprint
        + AllocGlobal
        + Files<File = File>
        + Clock
        + Wait
        + Threads
        + Sync
        + Net<Listener = TcpListener, Stream = TcpStream>,
    R::Dir: Send + Sync,
{
    let alloc = rt.alloc();
    let bytes = script_bytes(rt, alloc, options.script)?;
    let threads = options.threads.unwrap_or_else(|| processors(rt));
    let sockets = sockets_of(options, &supervisor);
    let bounds = bounded(rt, alloc, options, threads, sockets)?;
    let options = RunOptions { bounds, ..options };
    let loops = bounds.loops(threads);
    match options.journal {
        None => run_from_script(rt, maker, &bytes, options, loops, supervisor),
        Some(path) => run_from_journal(rt, maker, &bytes, options, loops, path, supervisor),
    }
}

/// How many seats a hall has for so many loops: one more that sets it up, and those of both places for sessions.
fn seats_for(loops: u16) -> u16
    requires few { loops ≤ 64 }
    ensures { result ≡ loops + 65 }
{
    loops + 1 + 2 * SESSION_SEATS
}

/// The same, where a restart begins with the script again.
fn run_from_script<'a, R, P: Probe + Send, M: Maker<P> + Sync>(
    rt: &R,
    maker: &M,
    bytes: &[u8],
    options: RunOptions<'a>,
    loops: u16,
    supervisor: Supervisor,
) -> Result<(), RunFailure<'a>>
where
    R: Print
        + Eprint
        + AllocGlobal
        + Files<File = File>
        + Clock
        + Wait
        + Threads
        + Sync
        + Net<Listener = TcpListener, Stream = TcpStream>,
    R::Dir: Send + Sync,
    requires some { 1 ≤ loops }
    requires few { loops ≤ 64 }
    requires served { loops ≤ options.bounds.connections }
{
    let alloc = rt.alloc();
    let (made, expected) = set_up_expecting(rt, alloc, maker, bytes, seats_for(loops))?;
    let expectations = new_expectations(alloc)?;
    warn_of_script(rt, alloc, bytes)?;
    let chronicle = expectations.chronicle();
    chronicle.note_all(entries_of(&made), wall_micros(rt), Who::Setup);
    let setting = Setting {
        options,
        loops,
        expected: &expected,
        expectations: &expectations,
    };
    run_set_up(rt, alloc, maker, made, setting, supervisor)
}

/// The same, where a restart goes on from the file at this path. What the script expects is looked at before the file is, so that no setup
/// is put there which a line `expect` ends.
fn run_from_journal<'a, R, P: Probe + Send, M: Maker<P> + Sync>(
    rt: &R,
    maker: &M,
    bytes: &[u8],
    options: RunOptions<'a>,
    loops: u16,
    path: &'a str,
    supervisor: Supervisor,
) -> Result<(), RunFailure<'a>>
where
    R: Print
        + Eprint
        + AllocGlobal
        + Files<File = File>
        + Clock
        + Wait
        + Threads
        + Sync
        + Net<Listener = TcpListener, Stream = TcpStream>,
    R::Dir: Send + Sync,
    requires some { 1 ≤ loops }
    requires few { loops ≤ 64 }
    requires served { loops ≤ options.bounds.connections }
{
    let alloc = rt.alloc();
    let expected = expected_by_script(rt, alloc, maker, bytes)?;
    let expectations = new_expectations(alloc)?;
    let seats = seats_for(loops);
    let made = set_up_over(rt, alloc, maker, bytes, seats, path, &expectations)?;
    let setting = Setting {
        options,
        loops,
        expected: &expected,
        expectations: &expectations,
    };
    run_set_up(rt, alloc, maker, made, setting, supervisor)
}

/// A hall that the script has set up, with so many seats, and what it expects. What was refused first is the failure.
pub(crate) fn set_up_expecting<'a, R: Wait, P: Probe, M: Maker<P>>(
    rt: &R,
    alloc: Global,
    maker: &M,
    bytes: &[u8],
    seats: u16,
) -> Result<(SetUpHall<P, KeepMany>, Vec<Expected>), RunFailure<'a>>
    requires some { 1 ≤ seats }
    requires not_too_many { seats ≤ 1024 }
    ensures set_up { IfOk result (λ made. IsSetUpBy bytes.now seats made.0) }
    ensures expected { IfOk result (λ made. IsExpectedBy bytes.now made.1.items) }
{
    let made = set_up::<R, P, KeepMany, M>(rt, alloc, maker, bytes, seats);
    match expected_in(alloc, bytes)? {
        Ok(expected) => Ok((made?, expected)),
        Err(line) => Err(first_failure(made.err(), line)),
    }
}

/// What the script expects. Where some of it does not stand, and its setup has an earlier failure, that one is told.
pub(crate) fn expected_by_script<'a, R: Wait, P: Probe, M: Maker<P>>(
    rt: &R,
    alloc: Global,
    maker: &M,
    bytes: &[u8],
) -> Result<Vec<Expected>, RunFailure<'a>>
    ensures { IfOk result (λ expected. IsExpectedBy bytes.now expected.items) }
{
    match expected_in(alloc, bytes)? {
        Ok(expected) => Ok(expected),
        Err(line) => {
            let made = set_up::<R, P, KeepAll, M>(rt, alloc, maker, bytes, 1);
            Err(first_failure(made.err(), line))
        }
    }
}

/// Nothing is expected yet.
fn new_expectations(alloc: Global) -> Result<Arc<Expectations>, AllocError> {
    Ok(Arc::new(alloc, Expectations::new(alloc)?)?)
}

/// Runs a server over a hall that is set up, until it is told to end.
fn run_set_up<'a, R, P: Probe + Send, K: Keep + Send, M: Maker<P> + Sync>(
    rt: &R,
    alloc: Global,
    maker: &M,
    made: SetUpHall<P, K>,
    setting: Setting<'a, '_>,
    supervisor: Supervisor,
) -> Result<(), RunFailure<'a>>
where
    R: Print
        + Files<File = File>
        + Clock
        + Wait
        + Threads
        + Sync
        + Net<Listener = TcpListener, Stream = TcpStream>,
    R::Dir: Send + Sync,
    requires set_up { (calls : List (Option Call)) × IsWhollySetUp calls made }
    requires some { 1 ≤ setting.loops }
    requires enough { setting.loops < made.hall.seats }
    requires served { setting.loops ≤ setting.options.bounds.connections }
{
    let begun = begin(rt, alloc, &made, setting, supervisor)?;
    serve_begun(rt, alloc, maker, made, begun)
}

/// Serves with what has begun until it is told to end.
fn serve_begun<'a, R, P: Probe + Send, K: Keep + Send, M: Maker<P> + Sync>(
    rt: &R,
    alloc: Global,
    maker: &M,
    made: SetUpHall<P, K>,
    begun: Begun,
) -> Result<(), RunFailure<'a>>
where
    R: Print + Files<File = File> + Clock + Wait + Threads + Sync,
    R::Dir: Send + Sync,
    requires set_up { (calls : List (Option Call)) × IsWhollySetUp calls made }
    requires some { 1 ≤ vec_len begun.servers }
    requires enough { vec_len begun.servers < made.hall.seats }
    requires terms { HaveTerms made.hall.most begun.places }
{
    let Begun {
        servers,
        news,
        places,
        counters,
    } = begun;
    let signals = StopSignals::of_process(rt, alloc)?;
    let ran = serve_signalled(
        rt, alloc, made, servers, places, maker, &counters, &news, &signals,
    )?;
    tell_end(rt, alloc, ran, &news)
}

/// Tells how many entries a run leaves, once the files of its sockets are taken away, or that it lacked a thread.
fn tell_end<'a, R: Print + Files, P: Probe, K: Keep>(
    rt: &R,
    alloc: Global,
    ran: Ran<P, K>,
    news: &News,
) -> Result<(), RunFailure<'a>> {
    remove_sockets(rt, &ran);
    if news.lacks_threads() {
        return Err(RunFailure::TooFewThreads);
    }
    let line = journal_line(alloc, &ran)?;
    // Whoever reads the line may have the journal's file.
    drop(store_of(ran));
    print_line(rt, &line)
}

/// The store that a run leaves, which has its whole history, if it had one.
fn store_of<P: Probe, K: Keep>(ran: Ran<P, K>) -> Option<K>
    ensures stands { IfSome result (λ store. K.stands store ran.desk.journal) }
    ensures left { IfSome result (λ store. K.left store ≡ ran.desk.left) }
    ensures some { ran.desk.is_stored ≡ true → IsSome result }
{
    let Ran {
        servers: _,
        places: _,
        desk,
    } = ran;
    desk.into_store()
}

/// How many sockets there are for calls and plain requests.
fn sockets_of(options: RunOptions<'_>, supervisor: &Supervisor) -> u16
    ensures { result ≤ 2 }
{
    if options.plain.is_some() || supervisor.sockets.left() > 1 {
        2
    } else {
        1
    }
}

/// The bounds of a run with so many threads and sockets, as far as the files allow that the process may have open. Where they allow less, standard
/// error is told.
fn bounded<'a, R: Files + Eprint>(
    rt: &R,
    alloc: Global,
    options: RunOptions<'a>,
    threads: u16,
    sockets: u16,
) -> Result<Bounds, RunFailure<'a>>
    requires { sockets ≤ 2 }
{
    let bounds = options.bounds;
    let Ok(limit) = open_files(rt, alloc) else {
        return Ok(bounds);
    };
    let places = u16::from(options.control.is_some()) + u16::from(options.report.is_some());
    let reserved = reserved(bounds.loops(threads), sockets, places);
    let Some(within) = bounds_within(bounds, limit, reserved) else {
        return Err(RunFailure::TooFewFiles);
    };
    if within != bounds {
        let (files, fewer, wanted) = (limit.count(), within.connections(), bounds.connections());
        let _ = eprintln!(rt;
            "healthd: {files} open files allow {fewer} connections, not {wanted}"
        );
    }
    Ok(within)
}

/// As many as the system lets this process use, and no more than a server has loops.
fn processors<R: Threads>(rt: &R) -> u16
    ensures range { (1 ≤ result) × (result ≤ 64) }
{
    match thread::available_parallelism(rt) {
        Ok(count) => u16::try_from(count.get())
            .unwrap_or(MAX_LOOPS)
            .min(MAX_LOOPS),
        Err(_) => 1,
    }
}

/// The bytes of a script, without a byte order mark.
pub fn script_bytes<'a, R: Input + Files>(
    rt: &R,
    alloc: Global,
    source: Source<'a>,
) -> Result<Vec<u8>, RunFailure<'a>> {
    let read = match source {
        Source::StandardInput => read_script_bytes(alloc, rt.reader()),
        Source::File(path) => match fs::open(rt, path) {
            Ok(file) => read_script_bytes(alloc, file),
            Err(error) => Err(error),
        },
    };
    match read {
        Ok(bytes) => Ok(without_mark(bytes)),
        Err(error) => Err(failure_by(error, |cause| RunFailure::Read(source, cause))),
    }
}

/// A hall that the script has set up, with so many seats. It keeps the newest of its entries and status changes.
pub fn set_up<'a, R: Wait, P: Probe, K: Keep, M: Maker<P>>(
    rt: &R,
    alloc: Global,
    maker: &M,
    bytes: &[u8],
    seats: u16,
) -> Result<SetUpHall<P, K>, RunFailure<'a>>
    requires some { 1 ≤ seats }
    requires not_too_many { seats ≤ 1024 }
    ensures ok { IfOk result (IsSetUpBy bytes.now seats) }
    ensures failure { IfErr result (EndsSetUp bytes.now) }
{
    let script = match read_script(alloc, bytes, Mode::Run) {
        Ok(script) => script,
        Err(fault) => return Err(script_failure(alloc, bytes, fault)),
    };
    let numbers = Vec::from_slice(alloc, script.numbers())?;
    let made = hall_of(rt, alloc, script, maker, seats)?;
    match first_refused(&numbers, made.results()) {
        Some(line) => Err(refused(made, line)),
        None => Ok(made),
    }
}

/// The failure of a setup of which a change was not made. The hall is closed, which shows that nobody else has changed it.
fn refused<'a, P: Probe, K: Keep>(made: SetUpHall<P, K>, line: RefusedLine) -> RunFailure<'a>
    requires whole { length made.seats ≡ made.hall.seats }
    requires some { 1 ≤ made.hall.seats }
    ensures value { result ≡ Refused line }
    ensures alone { (calls : List (Option Call)) → AreSetUp calls made.results
        (new_seats made.hall.table made.hall.most made.hall.seats) made.seats
        → AreMadeAlone made.hall.most calls made.results }
{
    let (hall, seats) = made.into_hall();
    match hall.close(seats) {
        Ok(_) => RunFailure::Refused(line),
        Err(_) => unreachable!(),
    }
}

/// The line that tells how many entries the history has.
fn journal_line<P: Probe, K: Keep>(alloc: Global, ran: &Ran<P, K>) -> Result<String, AllocError>
    ensures { IfOk result (λ line. string_bytes line ≡ codes "journal " ++ decimal
        (length ran.now.desk.journal)) }
{
    let entries = ran.entries();
    format!(in alloc; "journal {entries}")
}

/// Serves until `news` tells that all is to end, and gives back what is left of the hall then.
pub fn serve_to_end<'a, R, P: Probe + Send, K: Keep + Send, M: Maker<P> + Sync>(
    rt: &R,
    alloc: Global,
    made: SetUpHall<P, K>,
    servers: Vec<EventServer>,
    places: SessionPlaces,
    maker: &M,
    counters: &Arc<Counters>,
    news: &News,
) -> Result<Ran<P, K>, RunFailure<'a>>
where
    R: Clock + Wait + Threads + Sync,
    requires set_up { (calls : List (Option Call)) × IsWhollySetUp calls made }
    requires some { 1 ≤ vec_len servers }
    requires enough { vec_len servers < made.hall.seats }
    requires terms { HaveTerms made.hall.most places }
    ensures servers { IfOk result (λ ran. AllEndedEmpty servers.items ran.servers.items) }
    // nothing but the setup, the lines of sessions and the watchdog makes changes
    ensures ran { IfOk result (λ ran. HasRun K.kept places ran.places made.hall
        (vec_len servers) made.seats ran.desk) }
    ensures alone { AreNone places → IfOk result (λ ran. HasRunLoops made.hall
        (vec_len servers) made.seats (past ran.desk.journal)) }
    ensures entries { AreNone places → IfOk result (λ ran. length ran.desk.journal ≡ length
        made.results) }
    ensures sessions { IfOk result (λ ran. HaveEnded places ran.places) }
    ensures failure { IfErr result (λ failure. failure ≡ OutOfMemory) }
{
    match run_live(rt, alloc, made, servers, places, maker, counters, news) {
        Ok(ran) => Ok(ran),
        Err(fault) => Err(failure_to_run(fault)),
    }
}

/// Takes the files of the sockets for sessions away, where they have one. Where one stays, the next server takes it over.
pub fn remove_sockets<R: Files, P: Probe, K: Keep>(rt: &R, ran: &Ran<P, K>) {
    let SessionPlaces {
        control,
        report,
        ..
    } = &ran.places;
    for server in [control, report] {
        if let Some(server) = server {
            let _ = server.remove_file(rt);
        }
    }
}

/// The one failure of loops that have seats, all of which come back.
fn failure_to_run<'a>(fault: LoopsFault) -> RunFailure<'a>
    requires { fault ≡ NoMemory }
    ensures { result ≡ OutOfMemory }
{
    match fault {
        LoopsFault::NoMemory => RunFailure::OutOfMemory,
        LoopsFault::NoLoops | LoopsFault::NoSeats | LoopsFault::SeatsMissing => unreachable!(),
    }
}
