//! Names of hosts are looked up in a thread of its own, one after the other: a slow name delays the names behind it and nothing else.
//! A target has one lookup at once, so as many wait as there are targets, at most; a look whose addresses come too late is late.

use crate::desk::Desk;
use std::alloc::{AllocError, Global};
use std::net::{Net, SocketAddr, ToSocketAddrs};
use std::sync::Wait;

/// The host of the target of this place is to be looked up.
#[derive(Drop)]
pub(crate) struct Lookup {
    pub(crate) place: usize,
    /// Of the look that asks.
    pub(crate) number: u64,
    pub(crate) host: String,
    pub(crate) port: u16,
}

/// Its addresses: none where it has none.
#[derive(Drop)]
pub(crate) struct Found {
    pub(crate) place: usize,
    pub(crate) number: u64,
    pub(crate) addresses: Vec<SocketAddr>,
}

/// Looks names up until no lookup comes any more.
pub(crate) fn resolve<R: Wait + Net>(rt: &R, alloc: Global, desk: &Desk) {
    for _ in rt.forever() {
        let Some(lookup) = desk.lookups.wait(rt) else {
            return;
        };
        let (place, number) = (lookup.place, lookup.number);
        let addresses = match addresses_of(rt, alloc, &lookup) {
            Ok(addresses) => addresses,
            Err(_) => Vec::new(alloc),
        };
        desk.found.put(
            rt,
            Found {
                place,
                number,
                addresses,
            },
        );
        desk.wake();
    }
}

fn addresses_of<R: Net>(
    rt: &R,
    alloc: Global,
    lookup: &Lookup,
) -> Result<Vec<SocketAddr>, AllocError> {
    let mut addresses = Vec::new(alloc);
    if let Ok(found) = (lookup.host.as_str(), lookup.port).to_socket_addrs(rt) {
        for address in found {
            addresses.push(address)?;
        }
    }
    Ok(addresses)
}
