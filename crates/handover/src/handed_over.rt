ghost use Rattle.std.specs.Prelude.{◌≡◌, ◌↔◌, ◌<◌, ◌++◌, ℕ, [], drop, take, length, IfSome, IfNone, IsSome};
ghost use Rattle.std.specs.Option.{option_to_list};
ghost use Rattle.handover.specs.Sockets.{IsHandedOver, first_descriptors};

use crate::listener::{is_open, listener_at, not_listening};
use crate::number::number_in;
use std::marker::Model;
use std::net::TcpListener;
use std::rt::Env;
use std::{io, str};

/// The first descriptor that is handed over.
const FIRST: u32 = 3;

/// The most sockets that are taken over. By default a process may have no more files open.
const MAX_SOCKETS: u32 = 1_024;

/// How many digits a number in the environment may have, and more.
const ROOM: usize = 16;

/// The sockets that a supervisor handed to this process, and that were not taken yet. Each is given out once.
///
/// No proof can see what follows, so `main` has to see to it: a process makes one such value from its environment, before it opens any
/// file. What is not taken stays open.
#[derive(Drop)]
pub struct HandedOver {
    next: u32,
    end: u32,
    /// Those below it were open when the process began. The number of another one may be given to a file that is opened later.
    open: u32,
}

/// The descriptors of the sockets that are left.
impl Model for HandedOver {
    ghost use Rattle.std.specs.Prelude.{ℕ, ◌+◌, ◌-◌, ◌≤◌, List};
    ghost use Rattle.std.specs.List.{range_with_len};
    ghost use Rattle.handover.specs.declared.handed_over.TheConstants.{MAX_SOCKETS};

    ghost Value = { List ℕ };

    ghost view = { λ handed. range_with_len handed.next (handed.end - handed.next) };

    ghost invariant = { λ handed. (handed.next ≤ handed.end) × (handed.end ≤ 3 + MAX_SOCKETS) };
}

impl HandedOver {
    /// No socket.
    pub fn nothing() -> HandedOver
        ensures { result ≡ [] }
    {
        HandedOver {
            next: FIRST,
            end: FIRST,
            open: FIRST,
        }
    }

    /// What the environment hands to the process of this id by `LISTEN_PID` and `LISTEN_FDS`. It is nothing where a text is missing or
    /// is no number, and where the sockets are another process's. From the first one on that is not open, none is taken.
    pub fn from_env<R: Env>(rt: &R, process_id: u32) -> HandedOver {
        let mut pid = [0u8; ROOM];
        let mut fds = [0u8; ROOM];
        let pid = text_of(rt, "LISTEN_PID", &mut pid);
        let fds = text_of(rt, "LISTEN_FDS", &mut fds);
        HandedOver::from_texts(process_id, pid, fds).as_open()
    }

    /// What the texts of `LISTEN_PID` and `LISTEN_FDS` hand over, whether it is open or not.
    pub fn from_texts(process_id: u32, pid: &str, fds: &str) -> HandedOver
        ensures some { (count : ℕ) → IsHandedOver process_id pid.now fds.now count
            → result ≡ first_descriptors count }
        ensures none { ((count : ℕ) → ¬ IsHandedOver process_id pid.now fds.now count)
            → result ≡ [] }
    {
        match sockets_for(process_id, pid, fds) {
            Some(count) => HandedOver {
                next: FIRST,
                end: FIRST + count,
                open: FIRST + count,
            },
            None => HandedOver::nothing(),
        }
    }

    /// The same sockets, of which those at the front are open.
    fn as_open(self) -> HandedOver
        ensures { result ≡ self }
    {
        let HandedOver { next, end, .. } = self;
        let open = (next..end).find(|descriptor| !is_open(*descriptor as i32));
        HandedOver {
            next,
            end,
            open: open.unwrap_or(end),
        }
    }

    /// How many sockets are left.
    pub fn left(&self) -> u32
        ensures { result ≡ length self.now }
    {
        self.end - self.next
    }

    /// Takes the next socket, which then does not wait and is closed at `exec`. It is an error of the kind `InvalidInput` if the
    /// descriptor is no listening TCP socket, or was not open when the process began, and it is gone then too.
    pub fn take(&mut self) -> Option<io::Result<TcpListener>>
        ensures some { IsSome result ↔ (0 < length self.old) }
        ensures left { self.new ≡ drop 1 self.old }
    {
        let descriptor = self.take_descriptor()?;
        if descriptor < self.open {
            Some(listener_at(descriptor as i32))
        } else {
            Some(Err(not_listening()))
        }
    }

    fn take_descriptor(&mut self) -> Option<u32>
        ensures taken { self.old ≡ option_to_list result ++ self.new }
        ensures small { IfSome result (λ descriptor. descriptor < 1027) }
        ensures some { IsSome result ↔ (0 < length self.old) }
    {
        if self.next == self.end {
            return None;
        }
        let descriptor = self.next;
        self.next += 1;
        Some(descriptor)
    }
}

/// How many sockets are handed to the process of this id by the texts of `LISTEN_PID` and `LISTEN_FDS`.
pub fn sockets_for(process_id: u32, pid: &str, fds: &str) -> Option<u32>
    ensures some { IfSome result (λ count. IsHandedOver process_id pid.now fds.now count) }
    ensures none { IfNone result ((count : ℕ) → ¬ IsHandedOver process_id pid.now fds.now count) }
{
    if number_in(pid)? != process_id {
        return None;
    }
    let count = number_in(fds)?;
    if count > MAX_SOCKETS {
        return None;
    }
    Some(count)
}

/// A text of the environment, or an empty one if it is missing, has no room or is no text.
fn text_of<'a, R: Env>(rt: &R, name: &str, buf: &'a mut [u8]) -> &'a str {
    match rt.var(name, buf) {
        Ok(len) => str::from_utf8(&buf[..len]).unwrap_or(""),
        Err(_) => "",
    }
}
