ghost use Rattle.std.specs.Prelude.{◌≡◌, ◌↔◌, List, Option, IfOk, IsSome, drop};
ghost use Rattle.desk_core.specs.declared.call.Call.{Call};
ghost use Rattle.running.specs.Run.{IsWhollySetUp};

use crate::run_failure::{RunFailure, failure_by};
use crate::run_options::RunOptions;
use control::{Access, ControlListener, Place};
use desk_core::Keep;
use handover::HandedOver;
use probe_core::Probe;
use server::SetUpHall;
use std::alloc::Global;
use std::io;
use std::net::{Net, SocketAddr, TcpListener, TcpStream};
use std::rt::Files;

/// The first descriptor that a supervisor hands over (sd_listen_fds(3)).
const FIRST_DESCRIPTOR: u32 = 3;

/// The sockets of a run, each of which listens.
#[derive(Drop)]
pub struct Listening {
    pub calls: TcpListener,
    /// Where calls come to, with the port that the system picked for port 0.
    pub address: SocketAddr,
    /// Where plain requests come to.
    pub plain: Option<TcpListener>,
    pub plain_address: Option<SocketAddr>,
    pub control: Option<ControlListener>,
    pub report: Option<ControlListener>,
}

/// The sockets of these options, for a hall that is set up. The first two that a supervisor hands over serve calls and plain requests.
pub fn listen_at_all<'a, R, P: Probe, K: Keep>(
    rt: &R,
    alloc: Global,
    made: &SetUpHall<P, K>,
    options: RunOptions<'a>,
    sockets: &mut HandedOver,
) -> Result<Listening, RunFailure<'a>>
where
    R: Files + Net<Listener = TcpListener, Stream = TcpStream>,
    // nothing is bound before
    requires set_up { (calls : List (Option Call)) × IsWhollySetUp calls made.now }
    ensures plain { IfOk result (λ listening. IsSome options.entry.plain
        → IsSome listening.plain) }
    ensures controlled { IfOk result (λ listening. IsSome listening.control ↔ IsSome
        options.entry.control) }
    ensures reported { IfOk result (λ listening. IsSome listening.report ↔ IsSome
        options.entry.report) }
{
    let (calls, address) = calls_at(rt, made, options.listen, sockets)?;
    let (plain, plain_address) = plain_at(rt, made, options, sockets)?;
    let (control, report) = sessions_at_both(rt, alloc, made, options)?;
    Ok(Listening {
        calls,
        address,
        plain,
        plain_address,
        control,
        report,
    })
}

/// The socket that calls come to, for a hall that is set up, and where it listens.
fn calls_at<'a, R, P: Probe, K: Keep>(
    rt: &R,
    made: &SetUpHall<P, K>,
    addr: SocketAddr,
    sockets: &mut HandedOver,
) -> Result<(TcpListener, SocketAddr), RunFailure<'a>>
where
    R: Net<Listener = TcpListener, Stream = TcpStream>,
    requires set_up { (calls : List (Option Call)) × IsWhollySetUp calls made.now }
{
    let listener = listener_of(rt, made, addr, sockets)?;
    let address = address_of(&listener, addr)?;
    Ok((listener, address))
}

/// The socket that plain requests come to, if there is one, for a hall that is set up, and where it listens.
fn plain_at<'a, R, P: Probe, K: Keep>(
    rt: &R,
    made: &SetUpHall<P, K>,
    options: RunOptions<'a>,
    sockets: &mut HandedOver,
) -> Result<(Option<TcpListener>, Option<SocketAddr>), RunFailure<'a>>
where
    R: Net<Listener = TcpListener, Stream = TcpStream>,
    requires set_up { (calls : List (Option Call)) × IsWhollySetUp calls made.now }
    ensures there { IfOk result (λ plain. IsSome options.entry.plain → IsSome plain.0) }
{
    let listener = plain_of(rt, made, options.plain, sockets)?;
    let address = plain_address_of(&listener, options)?;
    Ok((listener, address))
}

/// The sockets of the places for sessions that there are, for a hall that is set up: that of control, then that of reports.
fn sessions_at_both<'a, R: Files + Net, P: Probe, K: Keep>(
    rt: &R,
    alloc: Global,
    made: &SetUpHall<P, K>,
    options: RunOptions<'a>,
) -> Result<(Option<ControlListener>, Option<ControlListener>), RunFailure<'a>>
    requires set_up { (calls : List (Option Call)) × IsWhollySetUp calls made.now }
    ensures controlled { IfOk result (λ both. IsSome both.0 ↔ IsSome options.entry.control) }
    ensures reported { IfOk result (λ both. IsSome both.1 ↔ IsSome options.entry.report) }
{
    let control = sessions_at(rt, alloc, made, options.control, Access::Owner)?;
    let report = sessions_at(rt, alloc, made, options.report, Access::Group)?;
    Ok((control, report))
}

/// The socket that calls come to, for a hall that is set up: the first that was handed over, or else one that listens at the address.
fn listener_of<'a, R, P: Probe, K: Keep>(
    rt: &R,
    made: &SetUpHall<P, K>,
    addr: SocketAddr,
    sockets: &mut HandedOver,
) -> Result<TcpListener, RunFailure<'a>>
where
    R: Net<Listener = TcpListener, Stream = TcpStream>,
    // nothing is bound before
    requires set_up { (calls : List (Option Call)) × IsWhollySetUp calls made.now }
    ensures one { sockets.new ≡ drop 1 sockets.old }
{
    match sockets.take() {
        Some(Ok(listener)) => Ok(listener),
        Some(Err(_)) => Err(RunFailure::HandedOver(FIRST_DESCRIPTOR)),
        None => listen(rt, made, addr),
    }
}

/// The socket that plain requests come to: the second that was handed over, or else one that listens at the address, if there is one.
fn plain_of<'a, R, P: Probe, K: Keep>(
    rt: &R,
    made: &SetUpHall<P, K>,
    addr: Option<SocketAddr>,
    sockets: &mut HandedOver,
) -> Result<Option<TcpListener>, RunFailure<'a>>
where
    R: Net<Listener = TcpListener, Stream = TcpStream>,
    // nothing is bound before
    requires set_up { (calls : List (Option Call)) × IsWhollySetUp calls made.now }
    ensures there { IfOk result (λ listener. IsSome addr → IsSome listener) }
{
    match (sockets.take(), addr) {
        (Some(Ok(listener)), _) => Ok(Some(listener)),
        (Some(Err(_)), _) => Err(RunFailure::HandedOver(FIRST_DESCRIPTOR + 1)),
        (None, Some(addr)) => Ok(Some(listen(rt, made, addr)?)),
        (None, None) => Ok(None),
    }
}

/// A socket that listens and does not wait, for a hall that is set up.
pub fn listen<'a, R, P: Probe, K: Keep>(
    rt: &R,
    _made: &SetUpHall<P, K>,
    addr: SocketAddr,
) -> Result<TcpListener, RunFailure<'a>>
where
    R: Net<Listener = TcpListener, Stream = TcpStream>,
    // nothing is bound before
    requires set_up { (calls : List (Option Call)) × IsWhollySetUp calls _made.now }
{
    match mio::net::TcpListener::bind(rt, addr) {
        Ok(listener) => Ok(TcpListener::from(listener)),
        Err(error) => Err(bind_failure(error, Place::Address(addr))),
    }
}

fn bind_failure<'a>(error: io::Error, place: Place<'a>) -> RunFailure<'a> {
    failure_by(error, |cause| RunFailure::Bind(place, cause))
}

/// A socket that listens at a place for sessions, if there is one, for a hall that is set up.
pub fn sessions_at<'a, R: Files + Net, P: Probe, K: Keep>(
    rt: &R,
    alloc: Global,
    _made: &SetUpHall<P, K>,
    place: Option<Place<'a>>,
    access: Access,
) -> Result<Option<ControlListener>, RunFailure<'a>>
    // nothing is bound before
    requires set_up { (calls : List (Option Call)) × IsWhollySetUp calls _made.now }
    ensures some { IfOk result (λ listener. IsSome listener ↔ IsSome place.entry) }
{
    let Some(place) = place else {
        return Ok(None);
    };
    match ControlListener::bind(rt, alloc, place, access) {
        Ok(listener) => Ok(Some(listener)),
        Err(error) => Err(bind_failure(error, place)),
    }
}

/// Where the socket of plain requests listens, if there is one.
fn plain_address_of<'a>(
    plain: &Option<TcpListener>,
    options: RunOptions<'a>,
) -> Result<Option<SocketAddr>, RunFailure<'a>> {
    match plain {
        Some(plain) => {
            let asked = options.plain.unwrap_or(options.listen);
            Ok(Some(address_of(plain, asked)?))
        }
        None => Ok(None),
    }
}

/// Where the socket listens, which tells the port that the system picked for port 0.
fn address_of<'a>(listener: &TcpListener, asked: SocketAddr) -> Result<SocketAddr, RunFailure<'a>> {
    match listener.local_addr() {
        Ok(address) => Ok(address),
        Err(error) => Err(bind_failure(error, Place::Address(asked))),
    }
}
