ghost use Rattle.std.specs.Prelude.{◌≡◌, ◌==◌, nat_lt, [], map, length, string_bytes, IfOk};
ghost use Rattle.std.specs.List.{list_any};
ghost use Rattle.std.specs.String.{string_eq};
ghost use Rattle.indexmap.specs.IndexSet.{insert_all};
ghost use Rattle.desk_core.specs.Catalogue.{has_double};

use crate::slot::Slot;
use indexmap::IndexSet;
use std::alloc::{AllocError, Global};
use std::error::Error;
use std::fmt;
use std::marker::Model;

const MAX_NAMES: usize = 16;

const MAX_NAME_LEN: usize = 128;

/// Why names make no catalogue, in the order in which it is tested.
#[derive(Clone, Copy, Debug, PartialEq, Eq)]
pub enum CatalogueFault {
    NoNames = 1,
    TooMany = 2,
    TooLong = 3,
    TwiceListed = 4,
    NoEmptyName = 5,
    NoMemory = 6,
}

impl CatalogueFault {
    ghost use Rattle.std.specs.Prelude.{◌≡◌, map, string_bytes};
    ghost use Rattle.desk_core.specs.Fault.{fault_in, fault_number};

    /// The number that programs print.
    pub fn number(self) -> u8
        ensures { result ≡ fault_number self }
    {
        self as u8
    }

    fn first_in(names: &[String]) -> Option<CatalogueFault>
        ensures { result ≡ fault_in (map string_bytes names.now) }
    {
        if names.is_empty() {
            Some(CatalogueFault::NoNames)
        } else if names.len() > MAX_NAMES {
            Some(CatalogueFault::TooMany)
        } else if has_too_long(names) {
            Some(CatalogueFault::TooLong)
        } else if has_double(names) {
            Some(CatalogueFault::TwiceListed)
        } else if !has_empty_name(names) {
            Some(CatalogueFault::NoEmptyName)
        } else {
            None
        }
    }
}

impl fmt::Display for CatalogueFault {
    ghost use Rattle.std.specs.Prelude.{Some};
    ghost use Rattle.desk_core.specs.Fault.{text_of};

    ghost output = { λ fault. Some (text_of fault) };

    fn fmt<W: fmt::Write>(&self, f: &mut fmt::Formatter<W>) -> fmt::Result {
        f.write_str(match self {
            CatalogueFault::NoNames => "the catalogue has no names",
            CatalogueFault::TooMany => "the catalogue has more than 16 names",
            CatalogueFault::TooLong => "a name is longer than 128 bytes",
            CatalogueFault::TwiceListed => "a name is listed twice",
            CatalogueFault::NoEmptyName => "the empty name is missing",
            CatalogueFault::NoMemory => "out of memory",
        })
    }
}

impl Error for CatalogueFault {}

/// The names of the services, in the order in which they were given. A name's slot is its place.
pub struct Catalogue {
    names: IndexSet<String>,
}

impl Drop for Catalogue {
    fn drop(self) {
        let Catalogue { names: _ } = self;
    }
}

impl Model for Catalogue {
    ghost use Rattle.std.specs.Prelude.{ℕ, List, map, string_bytes};
    ghost use Rattle.desk_core.specs.Catalogue.{IsCatalogue};

    ghost Value = { List (List ℕ) };

    ghost view = { λ catalogue. map string_bytes catalogue.names.keys };

    ghost invariant = { λ catalogue. IsCatalogue (map string_bytes catalogue.names.keys) };
}

impl Catalogue {
    ghost use Rattle.std.specs.Prelude.{◌≡◌, ◌<◌, ◌≤◌, map, length, string_bytes, IfSome, IfNone, IfOk, IsOkUnless, option_copied};
    ghost use Rattle.desk_core.specs.Catalogue.{IsCatalogue, slot_of, name_at};
    ghost use Rattle.desk_core.specs.Fault.{fault_in};

    /// The catalogue of these names, or the first fault that they have.
    pub fn new(alloc: Global, names: Vec<String>) -> Result<Catalogue, CatalogueFault>
        ensures ok { IfOk result (λ catalogue. catalogue ≡ map string_bytes names.items) }

        // Names with a fault are refused for their first one, and others only when out of memory.
        ensures fault { IfSome (fault_in (map string_bytes names.items))
            (λ fault. result ≡ Err fault) }
        ensures no_fault { IfNone (fault_in (map string_bytes names.items))
            (IsOkUnless result CatalogueFault.NoMemory) }
    {
        match CatalogueFault::first_in(&names) {
            Some(fault) => Err(fault),
            None => match set_of(alloc, names) {
                Ok(names) => Ok(Catalogue { names }),
                Err(_) => Err(CatalogueFault::NoMemory),
            },
        }
    }

    /// The slot of a name of the catalogue.
    pub fn slot(&self, name: &str) -> Option<Slot>
        ensures value { result ≡ slot_of self.now name.now }
        ensures range { IfSome result (λ slot. (slot < 16) × (slot < length self.now)) }
    {
        let place = self.names.get_index_of(name)?;
        Slot::new(place as u8)
    }

    /// The name at a slot, if the catalogue has so many.
    pub fn name(&self, slot: Slot) -> Option<&str>
        ensures value { option_copied result ≡ name_at self.now slot }
    {
        let name = self.names.get_index(slot.number() as usize)?;
        Some(name.as_str())
    }

    /// How many names there are: at least one, so there is no `is_empty`.
    pub fn len(&self) -> usize
        ensures value { result ≡ length self.now }
        ensures range { (1 ≤ result) × (result ≤ 16) }
        ensures lawful { IsCatalogue self.now }
    {
        self.names.len()
    }
}

fn has_too_long(names: &[String]) -> bool
    ensures { result ≡ list_any (λ name. nat_lt 128 (length (string_bytes name))) names.now }
{
    names.iter().any(|name| name.len() > MAX_NAME_LEN)
}

fn has_double(names: &[String]) -> bool
    ensures { result ≡ has_double (map string_bytes names.now) }
{
    match names {
        [] => false,
        [name, others @ ..] => others.contains(name) || has_double(others),
    }
}

fn has_empty_name(names: &[String]) -> bool
    ensures { result ≡ list_any (λ name. length (string_bytes name) == 0) names.now }
{
    names.iter().any(|name| name.is_empty())
}

fn set_of(alloc: Global, names: Vec<String>) -> Result<IndexSet<String>, AllocError>
    ensures { IfOk result (λ set. set.keys ≡ insert_all string_eq [] names.items) }
{
    names.into_iter().collect(alloc)
}
