use crate::held_connection::HeldConnection;
use crate::refused::{NotTaken, Refused};
use slab::Slab;
use std::alloc::Global;
use std::marker::Model;
use tail::Whole;

/// The last key for which there is a token, which is the key and 2.
const LAST_KEY: usize = usize::MAX - 2;

/// The open connections of a server, each under a key of its own while it is held.
///
/// What was ever taken in is what has ended and what is held. `C` is a connection, which the table never looks into.
#[derive(Drop)]
pub struct Table<C> {
    places: Slab<HeldConnection<C>>,
    watches: usize,
    counted: u64,
    most: usize,
    most_watches: usize,
    taken: Whole<()>,
    ended: Whole<()>,
}

impl<C> Model for Table<C> {
    ghost use Rattle.std.specs.Prelude.{length};
    ghost use Rattle.reactor.specs.Table.{TableState, table_code, IsTable};

    ghost Value = { TableState C };

    ghost coded = { table_code C.code };

    ghost view = { λ t. record {
      places = t.places.slots;
      taken = length t.taken.items;
      ended = length t.ended.items;
      most = t.most;
      most_watches = t.most_watches;
    } };

    ghost invariant = { λ t. IsTable t.places.slots t.watches t.counted t.taken.items t.ended.items t.most t.most_watches };
}

impl<C> Table<C> {
    ghost use Rattle.std.specs.Prelude.{◌≡◌, ◌+◌, ◌-◌, ◌^◌, ◌<◌, ◌≤◌, ◌↔◌, ◌==◌, ℕ, [], min, false, true, Some, None, IfSome, IfNone, OnSome, IfOk, IfErr, OnErr, OnOk, IsErrAnd, IsTrue, IsFalse, option_copied};
    ghost use Rattle.reactor.specs.declared.refused.Refused.TheVariants.{Full};
    ghost use Rattle.std.specs.Option.{option_copied_mut};
    ghost use Rattle.std.specs.Borrow.{sem};
    ghost use Rattle.reactor.specs.Table.{place_at, connection_at, IsHeld, is_watch, newcomer, held_count, watch_count, IsAccounted, Changes, MayBeAdmitted, with_watch};
    ghost use Rattle.reactor.specs.Lends.{lends_held, lends_connection};

    /// An empty table, which takes no memory yet. It holds at most so many connections, and so many of them as open Watches.
    pub fn new(alloc: Global, most: usize, most_watches: usize) -> Table<C>
        ensures { result ≡ record { places = []; taken = 0; ended = 0; most = most; most_watches = most_watches } }
    {
        Table {
            places: Slab::new(alloc),
            watches: 0,
            counted: 0,
            most,
            most_watches,
            taken: Whole::new(),
            ended: Whole::new(),
        }
    }

    /// How many connections are held.
    pub fn len(&self) -> usize
        ensures count { result ≡ held_count self.now }
        ensures accounted { IsAccounted self.now }
    {
        self.places.len()
    }

    /// Whether as many connections are held as may be.
    pub fn is_full(&self) -> bool
        ensures { result ≡ (held_count self.now == self.now.most) }
    {
        self.places.len() == self.most
    }

    /// How many connections are admitted as open Watches.
    pub fn watches(&self) -> usize
        ensures { result ≡ watch_count self.now }
    {
        self.watches
    }

    /// How many connections have ended, which stays at its greatest number once it has come to it.
    pub fn ended(&self) -> u64
        ensures { result ≡ min self.now.ended (2 ^ 64 - 1) }
    {
        self.counted
    }

    /// Takes a connection in under a free key, or gives it back. The key and 2, an event loop's token, is a `usize` too.
    pub fn insert(&mut self, connection: C) -> Result<usize, NotTaken<C>>
        ensures free { IfOk result (λ key. place_at self.old key ≡ None) }
        ensures holds { IfOk result (λ key. Changes self.old self.new key (Some (newcomer connection))) }
        ensures taken { OnOk result (self.new.taken ≡ self.old.taken + 1) }
        ensures ended { OnOk result (self.new.ended ≡ self.old.ended) }
        ensures token { IfOk result (λ key. key + 2 < 2 ^ 64) }
        ensures full { IsErrAnd result (λ back. back.refused ≡ Full) ↔ (held_count self.old ≡ self.old.most) }
        ensures back { IfErr result (λ back. back.connection ≡ connection) }
        ensures refused { OnErr result (self.new ≡ self.old) }
        ensures accounted { IsAccounted self.new }
    {
        if self.places.len() >= self.most {
            return Err(NotTaken {
                refused: Refused::Full,
                connection,
            });
        }
        if self.places.vacant_key() > LAST_KEY {
            return Err(NotTaken {
                refused: Refused::NoMemory,
                connection,
            });
        }
        let place = HeldConnection {
            connection,
            is_watch: false,
        };
        match self.places.insert(place) {
            Ok(key) => {
                self.taken = self.taken.and(&());
                Ok(key)
            }
            Err(failed) => Err(NotTaken {
                refused: Refused::NoMemory,
                connection: failed.value.connection,
            }),
        }
    }

    /// The connection that a key holds.
    pub fn get(&self, key: usize) -> Option<&C>
        ensures { option_copied result ≡ connection_at self.now key }
    {
        match self.places.get(key) {
            Some(place) => Some(&place.connection),
            None => None,
        }
    }

    /// The connection that a key holds, to be changed.
    pub fn get_mut(&mut self, key: usize) -> Option<&mut C>
        ensures* lends { sem 𝓛 (lends_connection C.row self.entry key result) }
        ensures value { option_copied_mut result ≡ connection_at self.old key }
    {
        if self.places.contains(key) {
            Some(self.connection_mut(key))
        } else {
            None
        }
    }

    fn connection_mut(&mut self, key: usize) -> &mut C
        requires { IsHeld self.old key }
        ensures* lends { sem 𝓛 (lends_held C.row self.entry key result) }
        ensures value { connection_at self.old key ≡ Some result.now }
    {
        self.places[key].connection_mut()
    }

    /// Whether a key's connection is admitted as an open Watch.
    pub fn is_admitted(&self, key: usize) -> bool
        ensures { result ≡ is_watch (place_at self.now key) }
    {
        match self.places.get(key) {
            Some(place) => place.is_watch,
            None => false,
        }
    }

    /// Admits a key's connection as an open Watch, unless as many are open as may be. It stays one to its end.
    pub fn admit(&mut self, key: usize) -> bool
        ensures admitted { IsTrue result ↔ MayBeAdmitted self.old key }
        ensures marked { IsTrue result → self.new ≡ with_watch self.old key }
        ensures refused { IsFalse result → self.new ≡ self.old }
        ensures accounted { IsAccounted self.new }
    {
        let Some(place) = self.places.get_mut(key) else {
            return false;
        };
        if place.is_watch {
            return true;
        }
        if self.watches >= self.most_watches {
            return false;
        }
        place.is_watch = true;
        self.watches += 1;
        true
    }

    /// The end of a connection, which frees its key, and a Watch's place where it was admitted as one.
    pub fn remove(&mut self, key: usize) -> Option<C>
        ensures value { result ≡ connection_at self.old key }
        ensures freed { Changes self.old self.new key None }
        ensures taken { self.new.taken ≡ self.old.taken }
        ensures ended { OnSome result (self.new.ended ≡ self.old.ended + 1) }
        ensures absent { IfNone result (self.new ≡ self.old) }
        ensures accounted { IsAccounted self.new }
    {
        let place = match self.places.try_remove(key) {
            Some(place) => place,
            None => return None,
        };
        self.watches -= usize::from(place.is_watch);
        self.ended = self.ended.and(&());
        self.counted = self.counted.saturating_add(1);
        Some(place.connection)
    }

    /// The first key from there on that holds a connection. It looks at each key on the way.
    pub fn next_key(&self, from: usize) -> Option<usize>
        ensures held { IfSome result (λ key. (from ≤ key) × IsHeld self.now key) }
        ensures first { IfSome result (λ key. (other : ℕ) → from ≤ other → other < key → place_at self.now other ≡ None) }
        ensures none { IfNone result ((other : ℕ) → from ≤ other → place_at self.now other ≡ None) }
    {
        for key in from..self.places.capacity() {
            if self.places.contains(key) {
                return Some(key);
            }
        }
        None
    }
}
