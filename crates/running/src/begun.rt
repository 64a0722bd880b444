//! A server that listens and has told where: what it is made of, and how.

ghost use Rattle.std.specs.Prelude.{◌≡◌, ◌↔◌, ◌≤◌, [], List, Option, None, IfOk, IfSome, IsSome, vec_len};
ghost use Rattle.control_server.specs.Server.{terms_of};
ghost use Rattle.desk_core.specs.declared.call.Call.{Call};
ghost use Rattle.live_run.specs.Sitting.{terms_by};
ghost use Rattle.live_run.specs.WholeRun.{HaveTerms};
ghost use Rattle.running.specs.Run.{AreLoopsOf, IsWhollySetUp, limits_in};

use crate::bounds::Bounds;
use crate::expected::{entries_of, waking, watch_over};
use crate::listening::listen_at_all;
use crate::listening_lines::{ListeningLines, lines_of, print_lines};
use crate::loops::{Loops, loops_at, notifying};
use crate::run_failure::RunFailure;
use crate::run_options::RunOptions;
use crate::supervisor::Supervisor;
use crate::tallies::{counters_of, gauges_of};
use chronicle::wall_micros;
use control::Rights;
use control_server::MAX_SESSIONS;
use desk_core::Keep;
use diary::{Held, Setup};
use handover::{HandedOver, Notifier};
use live_run::{Counters, Gauges, SessionPlaces, WatchdogLoop};
use live_server::{EventServer, News};
use log_lines::Outlet;
use probe_core::Probe;
use script::Expected;
use server::SetUpHall;
use std::alloc::Global;
use std::net::{Net, SocketAddr, TcpListener, TcpStream};
use std::rt::Files;
use std::sync::Arc;
use std::time::Clock;
use watchdog::Expectations;

const MICROS_A_SECOND: u64 = 1_000_000;

/// What a server is told that runs over a hall that is set up.
#[derive(Clone, Copy)]
pub struct Setting<'a, 'b> {
    pub options: RunOptions<'a>,
    pub loops: u16,
    /// What the script expects.
    pub expected: &'b [Expected],
    pub expectations: &'b Arc<Expectations>,
}

/// What listens, and has told where.
#[derive(Drop)]
pub struct Begun {
    pub servers: Vec<EventServer>,
    pub news: News,
    pub places: SessionPlaces,
    /// What plain requests are told of the server.
    pub counters: Arc<Counters>,
}

impl Begun {
    ghost use Rattle.std.specs.Prelude.{◌≡◌, ◌↔◌, ℕ, IsSome};
    ghost use Rattle.live_run.specs.WholeRun.{HaveTerms};

    /// The same, whose loop over the control place tells a supervisor once it is told to stop.
    fn notifying(self, notifier: Notifier) -> Begun
        ensures servers { result.servers ≡ self.servers }
        ensures control { IsSome result.places.control ↔ IsSome self.places.control }
        ensures report { result.places.report ≡ self.places.report }
        ensures watchdog { result.places.watchdog ≡ self.places.watchdog }
        ensures terms { (most : ℕ) → HaveTerms most self.places → HaveTerms most result.places }
    {
        let Begun {
            servers,
            news,
            places,
            counters,
        } = self;
        let SessionPlaces {
            control,
            report,
            watchdog,
        } = places;
        Begun {
            servers,
            news,
            places: SessionPlaces {
                control: notifying(control, notifier),
                report,
                watchdog,
            },
            counters,
        }
    }
}

/// Listens at all places with so many loops, for a hall that is set up, and prints the lines that tell so.
pub fn begin<'a, R, P: Probe, K: Keep>(
    rt: &R,
    alloc: Global,
    made: &SetUpHall<P, K>,
    setting: Setting<'a, '_>,
    supervisor: Supervisor,
) -> Result<Begun, RunFailure<'a>>
where
    R: Print + Files + Clock + Net<Listener = TcpListener, Stream = TcpStream>,
    requires set_up { (calls : List (Option Call)) × IsWhollySetUp calls made.now }
    requires some { 1 ≤ setting.loops }
    requires served { setting.loops ≤ setting.options.bounds.connections }
    ensures each { IfOk result (λ begun. vec_len begun.servers ≡ setting.entry.loops) }
    ensures limits { IfOk result (λ begun. AreLoopsOf (limits_in setting.entry.options.bounds)
        begun.servers.items) }
    ensures controlled { IfOk result (λ begun. IsSome begun.places.control ↔ IsSome
        setting.entry.options.control) }
    ensures reported { IfOk result (λ begun. IsSome begun.places.report ↔ IsSome
        setting.entry.options.report) }
    ensures terms { IfOk result (λ begun. HaveTerms made.now.hall.most begun.places) }
    // where there are no sessions and nothing is expected, no watchdog makes changes
    ensures unwatched { setting.entry.options.control ≡ None
        → setting.entry.options.report ≡ None → setting.entry.expected.now ≡ []
        → IfOk result (λ begun. begun.places.watchdog ≡ None) }
{
    let Supervisor {
        sockets,
        notifier,
        outlet,
    } = supervisor;
    let (loops, address, lines) = listen(rt, alloc, made, setting, sockets)?;
    let outlet = outlet_for(setting.options, outlet);
    let begun = watched(rt, alloc, made, setting, loops, address, outlet)?;
    print_lines(rt, &lines)?;
    let _ = notifier.ready();
    Ok(begun.notifying(notifier))
}

/// Loops that listen at all places, the address that calls come to, and the lines that tell where the loops listen.
fn listen<'a, R, P: Probe, K: Keep>(
    rt: &R,
    alloc: Global,
    made: &SetUpHall<P, K>,
    setting: Setting<'a, '_>,
    mut sockets: HandedOver,
) -> Result<(Loops, SocketAddr, ListeningLines), RunFailure<'a>>
where
    R: Files + Clock + Net<Listener = TcpListener, Stream = TcpStream>,
    requires set_up { (calls : List (Option Call)) × IsWhollySetUp calls made.now }
    ensures each { IfOk result (λ begun. vec_len begun.0.servers ≡ setting.entry.loops) }
    ensures limits { IfOk result (λ begun. AreLoopsOf (limits_in setting.entry.options.bounds)
        begun.0.servers.items) }
    ensures controlled { IfOk result (λ begun. IsSome begun.0.control ↔ IsSome
        setting.entry.options.control) }
    ensures reported { IfOk result (λ begun. IsSome begun.0.report ↔ IsSome
        setting.entry.options.report) }
    ensures all { IfOk result (λ begun. IfSome begun.0.control
        (λ server. terms_of server ≡ terms_by Rights.All made.now.hall.most)) }
    ensures reports { IfOk result (λ begun. IfSome begun.0.report
        (λ server. terms_of server ≡ terms_by Rights.Reports made.now.hall.most)) }
{
    let options = setting.options;
    let listening = listen_at_all(rt, alloc, made, options, &mut sockets)?;
    let address = listening.address;
    let lines = lines_of(alloc, &listening)?;
    let loops = loops_at(
        rt,
        alloc,
        listening,
        options.bounds.limits(),
        setting.loops,
        made.most(),
        setting.expectations,
    )?;
    Ok((loops, address, lines))
}

/// Where a server of these options writes its log: nowhere, if it is quiet.
fn outlet_for(options: RunOptions<'_>, outlet: Option<Outlet>) -> Option<Outlet> {
    if options.is_quiet { None } else { outlet }
}

/// These loops, which serve at this address, beside a watchdog where one is needed. It tells a diary, which writes to the outlet.
fn watched<'a, R, P: Probe, K: Keep>(
    rt: &R,
    alloc: Global,
    made: &SetUpHall<P, K>,
    setting: Setting<'a, '_>,
    loops: Loops,
    address: SocketAddr,
    outlet: Option<Outlet>,
) -> Result<Begun, RunFailure<'a>>
where
    R: Clock + Net,
    ensures servers { IfOk result (λ begun. begun.servers ≡ loops.servers) }
    ensures control { IfOk result (λ begun. begun.places.control ≡ loops.control) }
    ensures report { IfOk result (λ begun. begun.places.report ≡ loops.report) }
    ensures unwatched { setting.entry.options.control ≡ None
        → setting.entry.options.report ≡ None → setting.entry.expected.now ≡ []
        → IfOk result (λ begun. begun.places.watchdog ≡ None) }
{
    let Loops {
        servers,
        news,
        control,
        report,
    } = loops;
    let gauges = gauges_of(alloc, &servers, &control, &report)?;
    let started = wall_micros(rt) / MICROS_A_SECOND;
    let counters = counters_of(alloc, started, made.most(), &gauges, setting.expectations)?;
    let setup = setup_of(made, address, setting.options.bounds);
    let (watchdog, news) = watchdog_of(rt, alloc, made, setting, news, outlet, setup, gauges)?;
    Ok(Begun {
        servers,
        news,
        places: SessionPlaces {
            control,
            report,
            watchdog,
        },
        counters,
    })
}

/// A watchdog over what is expected, where one is needed, and news that wake it. It tells a diary of a server that these gauges are of.
fn watchdog_of<'a, R, P: Probe, K: Keep>(
    rt: &R,
    alloc: Global,
    made: &SetUpHall<P, K>,
    setting: Setting<'a, '_>,
    news: News,
    outlet: Option<Outlet>,
    setup: Setup,
    gauges: Gauges,
) -> Result<(Option<WatchdogLoop>, News), RunFailure<'a>>
where
    R: Clock + Net,
    ensures { setting.entry.options.control ≡ None → setting.entry.options.report ≡ None
        → setting.entry.expected.now ≡ [] → IfOk result (λ made. made.0 ≡ None) }
{
    let Setting {
        options,
        expected,
        expectations,
        ..
    } = setting;
    let watching = watch_over(rt, alloc, made, expected, expectations)?;
    let news = waking(news, &watching)?;
    let watching = watching.telling(alloc, outlet, setup, gauges)?;
    let has_sessions = options.control.is_some() || options.report.is_some();
    Ok((watching.needed(has_sessions || !expected.is_empty()), news))
}

/// What a diary is told of a hall that is set up, and serves here within these bounds.
fn setup_of<P: Probe, K: Keep>(
    made: &SetUpHall<P, K>,
    address: SocketAddr,
    bounds: Bounds,
) -> Setup {
    Setup {
        address,
        entries: entries_of(made),
        most: made.most(),
        room: Held {
            connections: bounds.connections(),
            watches: bounds.watches(),
            sessions: u32::from(MAX_SESSIONS),
        },
    }
}
