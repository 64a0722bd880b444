//! The sockets that calls and plain requests come to.

use crate::accept::Accept;
use crate::caller::{Caller, Entrance};
use libc::net::{EPOLL_CTL_ADD, EPOLL_CTL_DEL, EPOLLET, EPOLLIN, SOCK_CLOEXEC, SOCK_NONBLOCK};
use mio::net::{TcpListener, TcpStream};
use mio::{Poll, Token};
use os::FromRawFd;
use std::io::ErrorKind;
use std::os::fd::{AsRawFd, OwnedFd};
use std::{io, net};

/// Of all polls that wait for a connection one is woken (epoll_ctl(2)). Linux takes it with `EPOLL_CTL_ADD` alone.
const EPOLLEXCLUSIVE: u32 = 1 << 28;

/// A socket that listens, until it is closed.
#[derive(Drop)]
struct Listening {
    listener: TcpListener,
    /// Whether a poll reports it.
    is_reported: bool,
}

impl Listening {
    fn new(listener: TcpListener) -> Listening {
        Listening {
            listener,
            is_reported: false,
        }
    }

    fn control(&self, poll: &Poll, op: i32, events: u32, token: Token) -> io::Result<()> {
        let Token(number) = token;
        let listener = self.listener.as_raw_fd();
        if os::epoll_ctl(poll.as_raw_fd(), op, listener, events, number as u64) < 0 {
            return Err(io::Error::from_raw_os_error(os::errno()));
        }
        Ok(())
    }

    fn report(&mut self, poll: &Poll, token: Token) -> io::Result<()> {
        if !self.is_reported {
            let events = EPOLLIN | EPOLLET | EPOLLEXCLUSIVE;
            self.control(poll, EPOLL_CTL_ADD, events, token)?;
            self.is_reported = true;
        }
        Ok(())
    }

    fn leave(&self, poll: &Poll, token: Token) {
        if self.is_reported {
            let _ = self.control(poll, EPOLL_CTL_DEL, 0, token);
        }
    }

    /// It is one system call, where `TcpListener::accept` makes two.
    fn accept(&self) -> io::Result<TcpStream> {
        let mut addr = [0u8; 128];
        let mut len = 128u32;
        let flags = SOCK_NONBLOCK | SOCK_CLOEXEC;
        let listener = self.listener.as_raw_fd();
        let fd = unsafe { libc::net::accept4(listener, &mut addr, &mut len, flags) };
        if fd < 0 {
            return Err(io::Error::from_raw_os_error(os::errno()));
        }
        let socket = unsafe { OwnedFd::from_raw_fd(fd) };
        Ok(TcpStream::from_std(net::TcpStream::from(socket)))
    }
}

/// The socket that calls come to, and that of plain requests where there is one. Each loop has one of its own over the same sockets, and
/// of those that wait one is woken for a connection.
#[derive(Drop)]
pub struct Acceptor {
    /// None once it is closed.
    calls: Option<Listening>,
    plain: Option<Listening>,
    /// Which of them is asked first for the next connection: they take turns.
    next: Entrance,
}

impl Acceptor {
    /// No poll reports it yet.
    pub fn new(listener: TcpListener) -> Acceptor {
        Acceptor {
            calls: Some(Listening::new(listener)),
            plain: None,
            next: Entrance::Calls,
        }
    }

    /// The same, with a socket that plain requests come to.
    pub fn with_plain(self, listener: TcpListener) -> Acceptor {
        Acceptor {
            plain: Some(Listening::new(listener)),
            ..self
        }
    }

    /// The next connection that waits at one of the sockets.
    fn accept_at(&self, entrance: Entrance) -> io::Result<Caller> {
        let place = match entrance {
            Entrance::Calls => &self.calls,
            Entrance::Plain => &self.plain,
        };
        match place {
            Some(place) => Ok(Caller::new(place.accept()?, entrance)),
            None => Err(io::Error::from(ErrorKind::WouldBlock)),
        }
    }
}

impl Entrance {
    fn other(self) -> Entrance {
        match self {
            Entrance::Calls => Entrance::Plain,
            Entrance::Plain => Entrance::Calls,
        }
    }
}

impl Accept<Caller> for Acceptor {
    fn report(&mut self, poll: &Poll, token: Token) -> io::Result<()> {
        if let Some(calls) = &mut self.calls {
            calls.report(poll, token)?;
        }
        if let Some(plain) = &mut self.plain {
            plain.report(poll, token)?;
        }
        Ok(())
    }

    fn accept(&mut self) -> io::Result<Caller> {
        let first = self.next;
        let other = first.other();
        self.next = other;
        match self.accept_at(first) {
            Err(error) if error.kind() == ErrorKind::WouldBlock => self.accept_at(other),
            accepted => accepted,
        }
    }

    fn close(&mut self, poll: &Poll, token: Token) {
        if let Some(calls) = &self.calls {
            calls.leave(poll, token);
        }
        if let Some(plain) = &self.plain {
            plain.leave(poll, token);
        }
        self.calls = None;
        self.plain = None;
    }

    fn is_closed(&self) -> bool {
        self.calls.is_none()
    }
}
