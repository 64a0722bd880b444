ghost use Rattle.live_server.specs.Places.{HasPlaces};

use crate::handler::{Handler, Visit};
use crate::places::{Taken, Vacancy};
use mio::{Registry, Token};
use reactor::{
    Connection, Left, Machine, Occasion, Ready, Socket, Table, counts_change, one_key_changes,
};
use std::alloc::Global;
use std::io;

/// The connections that a loop holds, each in a place that was taken for it.
#[derive(Drop)]
pub(crate) struct Held<S, M: Machine> {
    table: Table<Connection<S, M>>,
    taken: Taken,
    /// How many of them are held whose conversations are over.
    draining: usize,
    ghost placed: { HasPlaces taken table },
}

impl<S: Socket, M: Machine> Held<S, M> {
    ghost use Rattle.std.specs.Prelude.{◌≡◌, ◌<◌, false, true, length, None, IfNone, IfSome, IsTrue, IsFalse};
    ghost use Rattle.reactor.specs.Table.{IsHeld, place_at};
    ghost use Rattle.reactor.specs.Connection.{is_over, may_look_at, state_of};
    ghost use Rattle.live_server.specs.Loop.{empty_table};
    ghost use Rattle.live_server.specs.Held.{held_in};
    ghost use Rattle.live_server.specs.Places.{limits_behind, taken_with};
    ghost use Rattle.live_server.specs.Settled.{AreSettled, AreSettledBut, KeepsAccount, KeepsOthers, is_settled};
    ghost use Rattle.web_call.specs.declared.bell.Turn.{Turn};

    /// None, with no place taken yet.
    pub(crate) fn new(alloc: Global, taken: Taken) -> Held<S, M>
        requires none { taken ≡ taken_with taken 0 0 }
        ensures { held_in result ≡ empty_table (limits_behind taken) }
    {
        let limits = taken.limits();
        Held {
            table: Table::new(alloc, limits.connections, limits.watches),
            taken,
            draining: 0,
        }
    }

    pub(crate) fn table(&self) -> &Table<Connection<S, M>>
        ensures { result.now ≡ held_in self.now }
    {
        &self.table
    }

    /// How many connections are held whose conversations are not over.
    pub(crate) fn talking(&self) -> usize {
        self.table.len().saturating_sub(self.draining)
    }

    /// Takes a place for a connection. Where none is free, all loops are woken once one is.
    pub(crate) fn vacancy(&self) -> Option<Vacancy> {
        self.taken.connection()
    }

    /// Gives a place back for which no connection is held.
    pub(crate) fn leave(&self, vacancy: Vacancy) {
        self.taken.leave(vacancy);
    }

    /// Whether a loop waits for a place for a connection, and one is free. It tells so once.
    pub(crate) fn is_waited_for(&self) -> bool {
        self.taken.is_waited_for()
    }

    #[tactic(auto, using(crate::proofs::PlacesLemmas::one_more_held, crate::proofs::PlacesLemmas::same_watches))]
    /// Holds a connection in this place. Where it can't, the connection is closed, and the place given back.
    pub(crate) fn insert(&mut self, connection: Connection<S, M>, vacancy: Vacancy) -> Option<usize>
        requires { may_look_at M.watches M.waiting (state_of connection) ≡ false }
        ensures account { KeepsAccount (held_in self.old) (held_in self.new) }
        ensures settled { AreSettled M.watches M.waiting (held_in self.old)
            → AreSettled M.watches M.waiting (held_in self.new) }
        ensures held { IfSome result (λ key. IsHeld (held_in self.new) key) }
    {
        let is_draining = connection.is_draining();
        match self.table.insert(connection) {
            Ok(key) => {
                self.taken.hold(vacancy, self.table.len());
                self.count(false, is_draining);
                Some(key)
            }
            Err(_) => {
                self.taken.leave(vacancy);
                None
            }
        }
    }

    /// Counts a conversation that is over, or the connection of one that is no longer held.
    fn count(&mut self, was_draining: bool, is_draining: bool)
        ensures { held_in self.new ≡ held_in self.old }
    {
        if is_draining && !was_draining {
            self.draining = self.draining.saturating_add(1);
        }
        if was_draining && !is_draining {
            self.draining = self.draining.saturating_sub(1);
        }
    }

    /// A turn of the connection that a key holds.
    pub(crate) fn turn<H: Handler<S, M>>(
        &mut self,
        key: usize,
        alloc: Global,
        handler: &mut H,
        buffer: &mut [u8],
        occasion: Occasion,
    ) -> Option<Left>
        requires ready { H.is_ready handler.old }
        requires room { 0 < length buffer.old }
        ensures others { KeepsOthers key (held_in self.old) (held_in self.new) }
        ensures ended { occasion.then ≡ Turn.End → IfSome result (λ left. is_over left ≡ false
            → is_settled M.watches M.waiting (place_at (held_in self.new) key) ≡ true) }
        ensures none { IfNone result (held_in self.new ≡ held_in self.old) }
        ensures absent { IfNone result (place_at (held_in self.new) key ≡ None) }
        ensures ready { H.is_ready handler.new }
        ensures stays { H.stays handler.old handler.new }
    {
        counts_change::<Connection<S, M>>();
        one_key_changes::<Connection<S, M>>();
        let visit = Visit {
            key,
            talking: self.talking(),
            occasion,
        };
        let connection = self.table.get_mut(key)?;
        let was_draining = connection.is_draining();
        let left = handler.turn(alloc, visit, connection, buffer);
        let is_draining = connection.is_draining();
        self.count(was_draining, is_draining);
        Some(left)
    }

    /// Admits the connection that a key holds as an open Watch, if a place is free, unless it is admitted already.
    pub(crate) fn admit(&mut self, key: usize) -> bool
        ensures account { KeepsAccount (held_in self.old) (held_in self.new) }
        ensures settled { IsTrue result → AreSettledBut M.watches M.waiting key (held_in self.old)
            → AreSettled M.watches M.waiting (held_in self.new) }
        ensures refused { IsFalse result → held_in self.new ≡ held_in self.old }
    {
        counts_change::<Connection<S, M>>();
        one_key_changes::<Connection<S, M>>();
        if self.table.is_admitted(key) {
            return true;
        }
        if self.table.get(key).is_none() || !self.taken.watch() {
            return false;
        }
        self.table.admit(key)
    }

    /// The end of a connection, which gives its places back.
    pub(crate) fn remove(&mut self, key: usize) -> Option<Connection<S, M>>
        ensures account { KeepsAccount (held_in self.old) (held_in self.new) }
        ensures settled { AreSettledBut M.watches M.waiting key (held_in self.old)
            → AreSettled M.watches M.waiting (held_in self.new) }
    {
        let connection = self.table.remove(key);
        self.taken.keep(self.table.len(), self.table.watches());
        if let Some(connection) = &connection {
            self.count(connection.is_draining(), false);
        }
        connection
    }

    /// Leaves what was reported of the socket of the connection that a key holds to a later turn.
    pub(crate) fn put_off(&mut self, key: usize, ready: Ready)
        ensures account { KeepsAccount (held_in self.old) (held_in self.new) }
        ensures settled { AreSettled M.watches M.waiting (held_in self.old)
            → AreSettled M.watches M.waiting (held_in self.new) }
    {
        counts_change::<Connection<S, M>>();
        one_key_changes::<Connection<S, M>>();
        if let Some(connection) = self.table.get_mut(key) {
            connection.put_off(ready);
        }
    }

    /// Has the poll report the socket of the connection that a key holds.
    pub(crate) fn report(&mut self, registry: &Registry, key: usize, token: Token) -> io::Result<()>
        ensures account { KeepsAccount (held_in self.old) (held_in self.new) }
        ensures settled { AreSettled M.watches M.waiting (held_in self.old)
            → AreSettled M.watches M.waiting (held_in self.new) }
    {
        counts_change::<Connection<S, M>>();
        one_key_changes::<Connection<S, M>>();
        match self.table.get_mut(key) {
            Some(connection) => connection.report(registry, token),
            None => Ok(()),
        }
    }
}
