//! The socket that sessions come to.

use control::{ControlListener, ControlStream, UnixPlace};
use live_server::Accept;
use mio::{Interest, Poll, Token};
use std::io;
use std::io::ErrorKind;
use std::rt::Files;

/// A control place, until it is closed.
#[derive(Drop)]
pub(crate) struct ControlAcceptor {
    listener: Option<ControlListener>,
    /// A Unix socket that accepts no more. Its file can be taken away only while that listens.
    left: Option<UnixPlace>,
    /// Whether a poll reports it.
    is_reported: bool,
}

impl ControlAcceptor {
    /// No poll reports it yet.
    pub(crate) fn new(listener: ControlListener) -> ControlAcceptor {
        ControlAcceptor {
            listener: Some(listener),
            left: None,
            is_reported: false,
        }
    }

    /// Takes the file of a Unix socket away, once it accepts no more, where it is still this one's.
    pub(crate) fn remove_file<R: Files>(&self, rt: &R) -> io::Result<()> {
        match &self.left {
            Some(place) => place.remove(rt),
            None => Ok(()),
        }
    }
}

impl Accept<ControlStream> for ControlAcceptor {
    fn report(&mut self, poll: &Poll, token: Token) -> io::Result<()> {
        if let Some(listener) = &mut self.listener {
            if !self.is_reported {
                listener.register(poll.registry(), token, Interest::READABLE)?;
                self.is_reported = true;
            }
        }
        Ok(())
    }

    fn accept(&mut self) -> io::Result<ControlStream> {
        match &self.listener {
            Some(listener) => listener.accept(),
            None => Err(io::Error::from(ErrorKind::WouldBlock)),
        }
    }

    fn close(&mut self, _poll: &Poll, _token: Token) {
        if let Some(ControlListener::Unix(place)) = self.listener.take() {
            self.left = Some(place);
        }
    }

    fn is_closed(&self) -> bool {
        self.listener.is_none()
    }
}
