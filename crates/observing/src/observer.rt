ghost use Rattle.std.specs.Prelude.{◌≡◌, length, vec_len, IfOk};

use crate::clock::Stopwatch;
use crate::desk::Desk;
use crate::ledger::Ledger;
use crate::lookout::Lookout;
use crate::observed::{ObserveFault, Observed, Telling};
use crate::post::Post;
use crate::resolver::resolve;
use crate::sink::Sink;
use crate::target::Target;
use crate::teller::Teller;
use crate::terms::Terms;
use crate::tower::Tower;
use crate::verdict::Verdict;
use control::Place;
use mio::{Events, Poll, Token, Waker};
use std::alloc::Global;
use std::net::{Net, TcpListener, TcpStream};
use std::sync::Wait;
use std::thread;
use std::thread::Threads;
use std::time::Clock;

/// How many events are taken at once.
const EVENTS: usize = 1024;

/// Looks at the targets, every so many milliseconds at each, and tells the place what each look came to, until the sink has enough of it.
pub fn observe<R, S>(
    rt: &R,
    place: Place<'_>,
    targets: &[Target],
    terms: Terms,
    sink: &mut S,
) -> Result<Telling, ObserveFault>
where
    R: Wait
        + Threads
        + Clock
        + AllocGlobal
        + Sync
        + Net<Listener = TcpListener, Stream = TcpStream>,
    S: Sink,
{
    match look_and_tell(rt, place, targets, terms, false, sink) {
        Ok((_, telling)) => Ok(telling),
        Err(fault) => Err(fault),
    }
}

/// Looks once at each target, at all of them at the same time, and tells the place what each look came to, or has tried to, before it
/// returns.
pub fn observe_once<R, S>(
    rt: &R,
    place: Place<'_>,
    targets: &[Target],
    terms: Terms,
    sink: &mut S,
) -> Result<Observed, ObserveFault>
where
    R: Wait
        + Threads
        + Clock
        + AllocGlobal
        + Sync
        + Net<Listener = TcpListener, Stream = TcpStream>,
    S: Sink,
    ensures { IfOk result (λ observed. vec_len observed.verdicts ≡ length targets.now) }
{
    match look_and_tell(rt, place, targets, terms, true, sink) {
        Ok((verdicts, telling)) => {
            let verdicts = all_of(rt.alloc(), targets.len(), &verdicts)?;
            Ok(Observed { verdicts, telling })
        }
        Err(fault) => Err(fault),
    }
}

/// The verdicts on so many targets, if there is one on each.
fn all_of(
    alloc: Global,
    count: usize,
    found: &[Option<Verdict>],
) -> Result<Vec<Verdict>, ObserveFault>
    ensures { IfOk result (λ verdicts. vec_len verdicts ≡ count) }
{
    let mut verdicts = Vec::with_capacity(alloc, count)?;
    for verdict in found {
        let Some(verdict) = *verdict else {
            return Err(ObserveFault::Unfinished);
        };
        if verdicts.push(verdict).is_err() {
            return Err(ObserveFault::OutOfMemory);
        }
    }
    if verdicts.len() != count {
        return Err(ObserveFault::Unfinished);
    }
    Ok(verdicts)
}

/// The newest verdict on each target, and what was told.
fn look_and_tell<R, S>(
    rt: &R,
    place: Place<'_>,
    targets: &[Target],
    terms: Terms,
    once: bool,
    sink: &mut S,
) -> Result<(Vec<Option<Verdict>>, Telling), ObserveFault>
where
    R: Wait
        + Threads
        + Clock
        + AllocGlobal
        + Sync
        + Net<Listener = TcpListener, Stream = TcpStream>,
    S: Sink,
{
    let alloc = rt.alloc();
    let poll = Poll::new(rt)?;
    let waker = Waker::new(poll.registry(), Token(targets.len()))?;
    let desk = Desk::new(alloc, targets.len(), waker)?;
    let teller = teller_for(alloc, place, targets)?;
    let mut tower = tower_for(rt, alloc, poll, targets, terms, once)?;
    let (telling, _) = thread::join(
        rt,
        || teller.run(rt, alloc, &desk),
        || look_and_resolve(rt, alloc, &desk, &mut tower, sink),
    );
    let ledger = tower.into_ledger();
    ledger.tell_notes(rt, &desk, sink);
    Ok(ledger.into_parts(telling))
}

/// Looks in this thread, while names are looked up in another.
fn look_and_resolve<R, S>(rt: &R, alloc: Global, desk: &Desk, tower: &mut Tower<'_>, sink: &mut S)
where
    R: Wait + Threads + Clock + Sync + Net<Listener = TcpListener, Stream = TcpStream>,
    S: Sink,
{
    thread::join(
        rt,
        || resolve(rt, alloc, desk),
        || tower.run(rt, alloc, desk, sink),
    );
}

fn teller_for<'a>(
    alloc: Global,
    place: Place<'a>,
    targets: &'a [Target],
) -> Result<Teller<'a>, ObserveFault> {
    let refusals = vec![in alloc; None; targets.len()]?;
    Ok(Teller::new(place, targets, refusals))
}

fn tower_for<'a, R: Clock>(
    rt: &R,
    alloc: Global,
    poll: Poll,
    targets: &'a [Target],
    terms: Terms,
    once: bool,
) -> Result<Tower<'a>, ObserveFault> {
    let watch = Stopwatch::new(rt)?;
    let posts = posts_for(alloc, targets, terms, once)?;
    let verdicts = vec![in alloc; None; targets.len()]?;
    let events = Events::with_capacity(alloc, EVENTS)?;
    let ledger = Ledger::new(targets, verdicts);
    Ok(Tower::new(poll, events, watch, posts, ledger, once))
}

/// One look at each begins at once; else looks are spread over the period.
fn posts_for<'a>(
    alloc: Global,
    targets: &'a [Target],
    terms: Terms,
    once: bool,
) -> Result<Vec<Post<'a>>, ObserveFault> {
    let Ok(count) = u32::try_from(targets.len()) else {
        return Err(ObserveFault::Targets);
    };
    let mut posts = Vec::with_capacity(alloc, targets.len())?;
    for place in 0..count {
        let target = &targets[place as usize];
        let lookout = if once {
            Lookout::spread(alloc, target.kind(), terms, 0, 1, 0)
        } else {
            Lookout::spread(alloc, target.kind(), terms, place, count, 0)
        };
        let Some(post) = Post::new(alloc, place as usize, target, lookout) else {
            return Err(ObserveFault::OutOfMemory);
        };
        if posts.push(post).is_err() {
            return Err(ObserveFault::OutOfMemory);
        }
    }
    Ok(posts)
}
