//! What is held of one target: its looks, and the connection of the look in course.

ghost use Rattle.std.specs.Prelude.{◌≤◌, vec_len};

use crate::desk::Desk;
use crate::event::Event;
use crate::lookout::Lookout;
use crate::resolver::{Found, Lookup};
use crate::stage::Stage;
use crate::target::Target;
use crate::verdict::Verdict;
use crate::work::{Work, glance, read_into, write_on};
use mio::event::Source;
use mio::net::TcpStream;
use mio::{Interest, Registry, Token};
use std::alloc::Global;
use std::net::{IpAddr, Net, SocketAddr};
use std::sync::Wait;

/// The most addresses of a host that are tried.
const MAX_ADDRESSES: usize = 32;

pub(crate) struct Post<'a> {
    place: usize,
    target: &'a Target,
    lookout: Lookout,
    request: Vec<u8>,
    addresses: Vec<SocketAddr>,
    stream: Option<TcpStream>,
    /// The address that the stream is connected to, by its place.
    dialled: usize,
    sent: usize,
    /// Whether its host is being looked up, for this look or for an earlier one.
    is_asked: bool,
    ghost sent_fits: { sent ≤ vec_len request },
}

impl Drop for Post<'_> {
    fn drop(self) {
        let Post {
            place: _,
            target: _,
            lookout: _,
            request: _,
            addresses: _,
            stream: _,
            dialled: _,
            sent: _,
            is_asked: _,
        } = self;
    }
}

impl<'a> Post<'a> {
    ghost use Rattle.std.specs.Prelude.{◌<◌, ◌^◌};

    /// One whose first look is still to begin. None where memory runs out.
    pub(crate) fn new(
        alloc: Global,
        place: usize,
        target: &'a Target,
        lookout: Lookout,
    ) -> Option<Post<'a>> {
        Some(Post {
            place,
            target,
            lookout,
            request: target.request(alloc)?,
            addresses: Vec::new(alloc),
            stream: None,
            dialled: 0,
            sent: 0,
            is_asked: false,
        })
    }

    /// The reading at which it has to have a turn.
    pub(crate) fn until(&self) -> u64 {
        self.lookout.until()
    }

    /// Begins a look if one is due.
    pub(crate) fn begin(&mut self, alloc: Global, now: u64)
        requires { now < 2 ^ 63 }
    {
        if self.lookout.begin(alloc, now) {
            self.stream = None;
            self.addresses.clear();
        }
    }

    /// Time has passed.
    pub(crate) fn wait<R: Wait + Net>(
        &mut self,
        rt: &R,
        alloc: Global,
        registry: &Registry,
        desk: &Desk,
        now: u64,
    ) -> Option<Verdict> {
        let told = self.hear(now, Event::Waited);
        if told.is_some() {
            return told;
        }
        self.go_on(rt, alloc, registry, desk, now)
    }

    /// The addresses of the host have come. Those that an earlier look had asked for count for nothing, and are asked for again.
    pub(crate) fn resolved<R: Wait + Net>(
        &mut self,
        rt: &R,
        alloc: Global,
        registry: &Registry,
        desk: &Desk,
        now: u64,
        found: Found,
    ) -> Option<Verdict> {
        self.is_asked = false;
        let told = self.take(now, found);
        if told.is_some() {
            return told;
        }
        self.go_on(rt, alloc, registry, desk, now)
    }

    fn take(&mut self, now: u64, found: Found) -> Option<Verdict> {
        if found.number != self.lookout.number() {
            return None;
        }
        self.addresses = found.addresses;
        let count = self.addresses.len();
        self.hear(now, Event::Resolved(count))
    }

    fn hear(&mut self, now: u64, event: Event<'_>) -> Option<Verdict> {
        let number = self.lookout.number();
        let told = self.lookout.hear(number, now, event);
        if told.is_some() {
            self.stream = None;
        }
        told
    }

    /// Does what the look asks for, as far as it can be done now.
    fn go_on<R: Wait + Net>(
        &mut self,
        rt: &R,
        alloc: Global,
        registry: &Registry,
        desk: &Desk,
        now: u64,
    ) -> Option<Verdict> {
        for _ in 0..=MAX_ADDRESSES {
            let told = match self.lookout.stage() {
                Stage::Naming => match self.name(rt, alloc, desk, now) {
                    Some(told) => told,
                    None => return None,
                },
                Stage::Dialling(dial) => {
                    if self.stream.is_some() && self.dialled == dial.place {
                        return None;
                    }
                    self.dial(rt, registry, now, dial.place)
                }
                Stage::Reading | Stage::Over => return None,
            };
            if told.is_some() {
                return told;
            }
        }
        None
    }

    /// Asks for the addresses of the host. An address needs no look-up.
    fn name<R: Wait>(
        &mut self,
        rt: &R,
        alloc: Global,
        desk: &Desk,
        now: u64,
    ) -> Option<Option<Verdict>> {
        if let Ok(ip) = self.target.host().parse::<IpAddr>() {
            self.addresses.clear();
            let address = SocketAddr::new(ip, self.target.port());
            let count = match self.addresses.push(address) {
                Ok(()) => 1,
                Err(_) => 0,
            };
            return Some(self.hear(now, Event::Resolved(count)));
        }
        if !self.is_asked {
            self.is_asked = self.ask(rt, alloc, desk);
        }
        None
    }

    fn ask<R: Wait>(&self, rt: &R, alloc: Global, desk: &Desk) -> bool {
        let Ok(host) = String::from_str(alloc, self.target.host()) else {
            return false;
        };
        let lookup = Lookup {
            place: self.place,
            number: self.lookout.number(),
            host,
            port: self.target.port(),
        };
        desk.lookups.put(rt, lookup)
    }

    /// Begins a connection to the address of this place.
    fn dial<R: Net>(
        &mut self,
        rt: &R,
        registry: &Registry,
        now: u64,
        place: usize,
    ) -> Option<Verdict> {
        self.stream = match self.addresses.get(place) {
            Some(address) => connect(rt, registry, *address, Token(self.place)),
            None => None,
        };
        self.dialled = place;
        self.sent = 0;
        if self.stream.is_some() {
            return None;
        }
        self.hear(now, Event::Refused)
    }

    /// Something happened at its connection.
    pub(crate) fn ready<R: Wait + Net>(
        &mut self,
        rt: &R,
        alloc: Global,
        registry: &Registry,
        desk: &Desk,
        now: u64,
    ) -> Option<Verdict> {
        let told = match self.lookout.stage() {
            Stage::Dialling(_) => self.dialling(now),
            Stage::Reading => self.reading(now),
            Stage::Naming | Stage::Over => None,
        };
        if told.is_some() {
            return told;
        }
        self.go_on(rt, alloc, registry, desk, now)
    }

    /// Whether the connection stands by now.
    fn dialling(&mut self, now: u64) -> Option<Verdict> {
        let Some(stream) = &self.stream else {
            return None;
        };
        match glance(stream) {
            Work::Waits => None,
            Work::Done => {
                let told = self.hear(now, Event::Connected);
                if told.is_some() {
                    return told;
                }
                self.reading(now)
            }
            Work::Failed => {
                self.stream = None;
                self.hear(now, Event::Refused)
            }
        }
    }

    /// Sends what is left of the request, and reads what has come.
    fn reading(&mut self, now: u64) -> Option<Verdict> {
        let Some(stream) = &mut self.stream else {
            return None;
        };
        match write_on(stream, &self.request, self.sent) {
            Ok(sent) => self.sent = sent,
            // What has come is read all the same.
            Err(_) => self.sent = self.request.len(),
        }
        let mut piece = [0u8; 4096];
        for _ in 0..u64::MAX {
            let Some(stream) = &mut self.stream else {
                return None;
            };
            let told = match read_into(stream, &mut piece) {
                Ok(Some(0)) => self.hear(now, Event::Closed),
                Ok(Some(count)) => self.hear(now, Event::Came(&piece[..count])),
                Ok(None) => return None,
                Err(_) => self.hear(now, Event::Closed),
            };
            if told.is_some() {
                return told;
            }
        }
        None
    }
}

/// A connection that a poll reports under this token; none where it cannot be made.
fn connect<R: Net>(
    rt: &R,
    registry: &Registry,
    address: SocketAddr,
    token: Token,
) -> Option<TcpStream> {
    let mut stream = TcpStream::connect(rt, address).ok()?;
    registry
        .register(&mut stream, token, Interest::READABLE | Interest::WRITABLE)
        .ok()?;
    Some(stream)
}
