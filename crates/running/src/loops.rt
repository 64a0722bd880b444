ghost use Rattle.std.specs.Prelude.{◌≡◌, ◌↔◌, IfOk, IfSome, IsSome, vec_len};
ghost use Rattle.std.specs.Arc.{arc_value};
ghost use Rattle.control.specs.declared.terms.Terms.{Terms};
ghost use Rattle.control_server.specs.Server.{terms_of};
ghost use Rattle.live_run.specs.Sitting.{terms_by};
ghost use Rattle.live_server.specs.Loop.{empty_table, held_by};
ghost use Rattle.live_server.specs.Places.{limits_of};
ghost use Rattle.running.specs.Run.{AreLoopsOf};

use crate::listening::Listening;
use crate::run_failure::{RunFailure, failure_by};
use crate::tallies::tallies_of;
use control::{ControlListener, Rights, Terms};
use control_server::ControlServer;
use handover::Notifier;
use live_server::{Acceptor, EventServer, News, Places, ServerLimits};
use mio::Waker;
use std::alloc::Global;
use std::io;
use std::net::{Net, TcpListener, TcpStream};
use std::sync::Arc;
use std::time::Clock;
use watchdog::Expectations;

/// The loops of a run: those over calls, and those over the sessions of each place that it has.
#[derive(Drop)]
pub struct Loops {
    pub servers: Vec<EventServer>,
    pub news: News,
    pub control: Option<ControlServer>,
    pub report: Option<ControlServer>,
}

/// Loops at these sockets, so many of them over calls, for a history of at most so many entries. Each has the sockets too, and closes them
/// at the end, so that clients which come late are refused.
pub fn loops_at<'a, R>(
    rt: &R,
    alloc: Global,
    listening: Listening,
    limits: ServerLimits,
    loops: u16,
    most: u32,
    expectations: &Arc<Expectations>,
) -> Result<Loops, RunFailure<'a>>
where
    R: Clock + Net<Listener = TcpListener, Stream = TcpStream>,
    ensures each { IfOk result (λ made. vec_len made.servers ≡ loops) }
    ensures limits { IfOk result (λ made. AreLoopsOf limits made.servers.items) }
    ensures controlled { IfOk result (λ made. IsSome made.control ↔ IsSome listening.control) }
    ensures reported { IfOk result (λ made. IsSome made.report ↔ IsSome listening.report) }
    ensures all { IfOk result (λ made. IfSome made.control
        (λ server. terms_of server ≡ terms_by Rights.All most)) }
    ensures reports { IfOk result (λ made. IfSome made.report
        (λ server. terms_of server ≡ terms_by Rights.Reports most)) }
{
    let Listening {
        calls,
        address: _,
        plain,
        plain_address: _,
        control,
        report,
    } = listening;
    let (servers, news) = event_loops(rt, alloc, calls, plain, limits, loops)?;
    let all = terms_with(Rights::All, most);
    let control = session_loop(rt, alloc, control, &servers, all, expectations)?;
    let reports = terms_with(Rights::Reports, most);
    let report = session_loop(rt, alloc, report, &servers, reports, expectations)?;
    Ok(Loops {
        servers,
        news,
        control,
        report,
    })
}

/// The terms of sessions with these rights, over a history of at most so many entries.
fn terms_with(rights: Rights, most: u32) -> Terms
    ensures { result ≡ terms_by rights most }
{
    Terms { rights, most }
}

/// So many loops over calls, which share places for these limits, and what tells them news. Each has handles of its own on these sockets.
pub fn event_loops<'a, R>(
    rt: &R,
    alloc: Global,
    calls: TcpListener,
    plain: Option<TcpListener>,
    limits: ServerLimits,
    loops: u16,
) -> Result<(Vec<EventServer>, News), RunFailure<'a>>
where
    R: Clock + Net<Listener = TcpListener, Stream = TcpStream>,
    ensures each { IfOk result (λ made. vec_len made.0 ≡ loops) }
    ensures limits { IfOk result (λ made. AreLoopsOf limits made.0.items) }
{
    match loops_with(rt, alloc, &calls, &plain, limits, loops) {
        Ok(made) => Ok(made),
        Err(error) => Err(failure_by(error, RunFailure::EventLoop)),
    }
}

fn loops_with<R>(
    rt: &R,
    alloc: Global,
    listener: &TcpListener,
    plain: &Option<TcpListener>,
    limits: ServerLimits,
    loops: u16,
) -> io::Result<(Vec<EventServer>, News)>
where
    R: Clock + Net<Listener = TcpListener, Stream = TcpStream>,
    ensures each { IfOk result (λ made. vec_len made.0 ≡ loops) }
    ensures limits { IfOk result (λ made. AreLoopsOf limits made.0.items) }
{
    let mut servers = Vec::new(alloc);
    let mut wakers = Vec::new(alloc);
    let places = Arc::new(alloc, Places::new(limits))?;
    for _ in 0..loops {
        let (server, waker) = loop_with(rt, alloc, listener, plain, &places)?;
        wakers.push(waker)?;
        servers.push(server)?;
    }
    Ok((servers, News::new(wakers)))
}

/// A loop that shares these places, and what wakes it.
fn loop_with<R>(
    rt: &R,
    alloc: Global,
    listener: &TcpListener,
    plain: &Option<TcpListener>,
    places: &Arc<Places>,
) -> io::Result<(EventServer, Waker)>
where
    R: Clock + Net<Listener = TcpListener, Stream = TcpStream>,
    ensures { IfOk result (λ made. held_by made.0 ≡ empty_table (limits_of (arc_value places.now))) }
{
    let acceptor = acceptor_of(listener, plain)?;
    let server = EventServer::new(rt, alloc, acceptor, places.clone()?)?;
    let waker = server.waker()?;
    Ok((server, waker))
}

/// What accepts the connections that come to these sockets, with handles of its own.
fn acceptor_of(listener: &TcpListener, plain: &Option<TcpListener>) -> io::Result<Acceptor> {
    let acceptor = Acceptor::new(mio::net::TcpListener::from_std(listener.try_clone()?));
    match plain {
        Some(plain) => {
            let plain = mio::net::TcpListener::from_std(plain.try_clone()?);
            Ok(acceptor.with_plain(plain))
        }
        None => Ok(acceptor),
    }
}

/// A loop over the sessions of a place, if there is one.
pub fn session_loop<'a, R: Clock + Net>(
    rt: &R,
    alloc: Global,
    listener: Option<ControlListener>,
    servers: &[EventServer],
    terms: Terms,
    expectations: &Arc<Expectations>,
) -> Result<Option<ControlServer>, RunFailure<'a>>
    ensures some { IfOk result (λ server. IsSome server ↔ IsSome listener) }
    ensures terms { IfOk result (λ server. IfSome server (λ server. terms_of server ≡ terms)) }
{
    let Some(listener) = listener else {
        return Ok(None);
    };
    let tallies = tallies_of(alloc, servers)?;
    let expectations = expectations.clone()?;
    match ControlServer::new(rt, alloc, listener, tallies, terms, expectations) {
        Ok(server) => Ok(Some(server)),
        Err(error) => Err(failure_by(error, RunFailure::EventLoop)),
    }
}

/// The loop over the control place, if there is one, which tells a supervisor once it is told to stop.
pub fn notifying(server: Option<ControlServer>, notifier: Notifier) -> Option<ControlServer>
    ensures some { IsSome result ↔ IsSome server }
    ensures terms { (terms : Terms) → IfSome server (λ one. terms_of one ≡ terms) → IfSome result
        (λ one. terms_of one ≡ terms) }
{
    match server {
        Some(server) => Some(server.notifying(notifier)),
        None => None,
    }
}
