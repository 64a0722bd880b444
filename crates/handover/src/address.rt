ghost use Rattle.std.specs.Prelude.{◌≡◌, ◌↔◌, ◌+◌, ◌≤◌, ◌++◌, IfSome, IsSome, IsTrue, length, take};
ghost use Rattle.handover.specs.Address.{IsNotifyName, address_bytes};

use libc::net::{_SS_SIZE, AF_UNIX};
use std::marker::Model;

/// The longest name of a socket, in bytes. An address has 108 for it, with a NUL.
const MAX_NAME_LEN: usize = 107;

/// The address of a Unix socket, as the system takes it.
#[derive(Drop)]
pub(crate) struct Address {
    bytes: [u8; _SS_SIZE],
    len: u32,
}

/// The bytes that count.
impl Model for Address {
    ghost use Rattle.std.specs.Prelude.{ℕ, ◌≤◌, List, take};

    ghost Value = { List ℕ };

    ghost view = { λ address. take address.len address.bytes };

    ghost invariant = { λ address. address.len ≤ 128 };
}

impl Address {
    /// The address that a name of `NOTIFY_SOCKET` stands for.
    pub(crate) fn of(name: &[u8]) -> Option<Address>
        ensures some { IsSome result ↔ IsNotifyName name.now }
        ensures bytes { IfSome result (λ address. address ≡ address_bytes name.now) }
    {
        if !is_notify_name(name) {
            return None;
        }
        let mut bytes = [0u8; _SS_SIZE];
        let at = put(&mut bytes, 0, &(AF_UNIX as u16).to_ne_bytes());
        let len = if name.starts_with(b"@") {
            let at = put(&mut bytes, at, b"\0");
            put(&mut bytes, at, &name[1..])
        } else {
            let at = put(&mut bytes, at, name);
            put(&mut bytes, at, b"\0")
        };
        Some(Address {
            bytes,
            len: len as u32,
        })
    }

    pub(crate) fn bytes(&self) -> &[u8; _SS_SIZE]
        ensures { take (length self.now) result.now ≡ self.now }
    {
        &self.bytes
    }

    pub(crate) fn len(&self) -> u32
        ensures len { result ≡ length self.now }
        ensures fits { result ≤ 128 }
    {
        self.len
    }
}

fn is_notify_name(name: &[u8]) -> bool
    ensures { IsTrue result ↔ IsNotifyName name.now }
{
    (name.starts_with(b"/") || name.starts_with(b"@"))
        && !name.contains(&0)
        && name.len() >= 2
        && name.len() <= MAX_NAME_LEN
}

/// Writes a part at a place, and tells where it ends.
fn put(bytes: &mut [u8; _SS_SIZE], at: usize, part: &[u8]) -> usize
    requires { at + length part.now ≤ 128 }
    ensures end { result ≡ at + length part.now }
    ensures bytes { take result bytes.new ≡ take at bytes.old ++ part.now }
{
    let end = at + part.len();
    bytes[at..end].copy_from_slice(part);
    end
}
