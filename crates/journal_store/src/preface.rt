//! The records in front of the entries of a journal's file.

ghost use Rattle.std.specs.Prelude.{◌≡◌, ◌+◌, ◌<◌, ◌++◌, All, length, take, IfOk, OnOk, IsErrOf};
ghost use Rattle.record_log.specs.Log.{texts};
ghost use Rattle.journal_store.specs.Preface.{BeginsWith, HasNoTitle, IsCutShort};
ghost use Rattle.journal_store.specs.declared.preface_fault.PrefaceFault.TheVariants.{CutShort, NoPreface};

use crate::preface_fault::PrefaceFault;
use crate::title::Title;
use desk_core::{Catalogue, Slot};
use std::alloc::{AllocError, Global};
use std::marker::Model;

/// The names of a catalogue, as the bytes that a file has, and how many entries the file stands for beyond those in it. Two are 0 in a
/// new file: `base`, how many entries of the whole history are not in the file one by one, but for those that stand for them, and
/// `condensed`, how many of the first entries in the file stand for older ones.
#[derive(Drop)]
pub struct Preface {
    names: Vec<Vec<u8>>,
    base: u64,
    condensed: u32,
}

impl Model for Preface {
    ghost use Rattle.record_log.specs.Log.{texts};
    ghost use Rattle.journal_store.specs.Preface.{Front, IsFront};

    ghost Value = { Front };

    ghost view = { λ preface. record {
      names = texts preface.names.items;
      base = preface.base;
      condensed = preface.condensed;
    } };

    ghost invariant = { λ preface. IsFront (record {
      names = texts preface.names.items;
      base = preface.base;
      condensed = preface.condensed;
    }) };
}

impl Preface {
    ghost use Rattle.std.specs.Prelude.{◌≡◌, ◌+◌, ◌<◌, ◌≤◌, All, length, IfOk, IfSome};
    ghost use Rattle.record_log.specs.Log.{texts};
    ghost use Rattle.journal_store.specs.Preface.{IsFront, new_of, preface_of};

    /// Of a new file. A name of a catalogue has at most 128 bytes, so each fits a record.
    pub fn new(alloc: Global, catalogue: &Catalogue) -> Result<Preface, AllocError>
        ensures { IfOk result (λ preface. preface ≡ new_of catalogue.now) }
    {
        let mut names = Vec::new(alloc);
        for number in 0..catalogue.len() as u8 {
            put_name(alloc, &mut names, catalogue, Slot::new(number).unwrap())?;
        }
        Ok(Preface {
            names,
            base: 0,
            condensed: 0,
        })
    }

    /// The names, as the bytes that the file has.
    pub fn names(&self) -> &[Vec<u8>]
        ensures { texts result.now ≡ self.now.names }
    {
        &self.names
    }

    /// How many entries of the whole history are not in the file, but for those that stand for them.
    pub fn base(&self) -> u64
        ensures { result ≡ self.now.base }
    {
        self.base
    }

    /// How many of the first entries in the file stand for older ones.
    pub fn condensed(&self) -> u32
        ensures { result ≡ self.now.condensed }
    {
        self.condensed
    }

    /// The same of a new file.
    pub(crate) fn renewed(self) -> Preface
        ensures new { result ≡ new_of self.names }
        ensures fits { IsFront result }
    {
        Preface {
            names: self.names,
            base: 0,
            condensed: 0,
        }
    }

    /// Of a file in which so many short entries take the place of the first so many. None where there are too many to count, or no memory.
    pub fn next(&self, alloc: Global, taken: usize, short: usize) -> Option<Preface>
        requires { short ≤ taken }
        ensures names { IfSome result (λ next. next.names ≡ self.now.names) }
        ensures condensed { IfSome result (λ next. short ≡ next.condensed) }
        ensures base { IfSome result (λ next. next.base + short ≡ self.now.base + taken) }
        ensures fits { IfSome result (λ next. IsFront next) }
    {
        let Ok(condensed) = u32::try_from(short) else {
            return None;
        };
        let base = self.base.checked_add((taken - short) as u64)?;
        let mut names = Vec::new(alloc);
        let Ok(()) = put_copies(alloc, &mut names, &self.names) else {
            return None;
        };
        Some(Preface {
            names,
            base,
            condensed,
        })
    }

    /// The records of the preface.
    pub fn write(&self, alloc: Global) -> Result<Vec<Vec<u8>>, AllocError>
        ensures records { IfOk result (λ records. texts records.items ≡ preface_of self.now) }
        ensures short { IfOk result (λ records. All (λ bytes. length bytes.items < 256)
            records.items) }
        ensures fits { IsFront self.now }
    {
        let title = Title {
            base: self.base,
            condensed: self.condensed,
            names: self.names.len() as u8,
        };
        let mut records = vec![in alloc; title.write(alloc)?]?;
        put_copies(alloc, &mut records, &self.names)?;
        Ok(records)
    }
}

/// Puts the name at this slot behind those before it, if there is one.
fn put_name(
    alloc: Global,
    names: &mut Vec<Vec<u8>>,
    catalogue: &Catalogue,
    slot: Slot,
) -> Result<(), AllocError>
    ensures { texts names.old.items ≡ take slot catalogue.now
        → OnOk result (texts names.new.items ≡ take (slot + 1) catalogue.now) }
{
    let Some(name) = catalogue.name(slot) else {
        return Ok(());
    };
    names.push(name.as_bytes().to_vec(alloc)?)?;
    Ok(())
}

/// Puts copies of these names behind the records.
pub(crate) fn put_copies(
    alloc: Global,
    records: &mut Vec<Vec<u8>>,
    names: &[Vec<u8>],
) -> Result<(), AllocError>
    ensures names { OnOk result (texts records.new.items
        ≡ texts records.old.items ++ texts names.now) }
{
    for name in names {
        records.push(name.as_slice().to_vec(alloc)?)?;
    }
    Ok(())
}

/// The preface at the front of these records, and how many records it takes.
pub fn read_preface(alloc: Global, found: &[Vec<u8>]) -> Result<(Preface, usize), PrefaceFault>
    ensures read { IfOk result (λ read. BeginsWith read.0 (texts found.now) read.1) }
    ensures none { IsErrOf result NoPreface → HasNoTitle (texts found.now) }
    ensures cut_short { IsErrOf result CutShort → IsCutShort (texts found.now) }
{
    let Some((first, records)) = found.split_first() else {
        return Err(PrefaceFault::NoPreface);
    };
    let Some(title) = Title::read(first) else {
        return Err(PrefaceFault::NoPreface);
    };
    let count = usize::from(title.names);
    if records.len() < count {
        return Err(PrefaceFault::CutShort);
    }
    let names = names_of(alloc, &records[..count])?;
    let preface = Preface {
        names,
        base: title.base,
        condensed: title.condensed,
    };
    Ok((preface, count + 1))
}

/// Copies of these records, which are names.
fn names_of(alloc: Global, records: &[Vec<u8>]) -> Result<Vec<Vec<u8>>, PrefaceFault>
    ensures names { IfOk result (λ names. texts names.items ≡ texts records.now) }
    ensures short { IfOk result (λ names. All (λ bytes. length bytes.items < 256) names.items) }
    ensures memory { IsErrOf result NoPreface → ⊥ }
    ensures whole { IsErrOf result CutShort → ⊥ }
{
    let mut names = Vec::new(alloc);
    for record in records {
        if record.len() > 255 {
            return Err(PrefaceFault::TooLong);
        }
        names.push(record.as_slice().to_vec(alloc)?)?;
    }
    Ok(names)
}
