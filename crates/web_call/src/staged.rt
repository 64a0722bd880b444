//! A registry for tests, and its doors.

use crate::desk_door::DeskDoor;
use desk_core::{Catalogue, Desk, Setting, Slot};
use probe_core::Manual;
use std::alloc::Global;
use std::test::Fail;

fn names(alloc: Global) -> Result<Vec<String>, Fail> {
    let mut names = Vec::new(alloc);
    names.push(String::from_str(alloc, "a")?)?;
    names.push(String::new(alloc))?;
    Ok(names)
}

/// A catalogue of `a` and the empty name.
fn catalogue(alloc: Global) -> Result<Catalogue, Fail> {
    Ok(Catalogue::new(alloc, names(alloc)?)?)
}

/// A catalogue of `a` and the empty name, and a desk on which the empty name alone is registered, and serving until it is set.
#[derive(Drop)]
pub struct Staged {
    catalogue: Catalogue,
    desk: Desk<Manual>,
}

impl Staged {
    /// With room for a thousand entries.
    pub fn new(alloc: Global) -> Result<Staged, Fail> {
        let mut staged = Staged {
            catalogue: catalogue(alloc)?,
            desk: Desk::new(alloc, 1_000),
        };
        if let Some(slot) = Slot::new(1) {
            let _ = staged.desk.register(0, slot, Manual::new());
        }
        staged.set(Setting::Up);
        Ok(staged)
    }

    /// Sets the empty name.
    pub fn set(&mut self, setting: Setting) {
        if let Some(slot) = Slot::new(1) {
            let _ = self.desk.set(0, slot, setting);
        }
    }

    /// A door over the desk as it stands.
    pub fn door(&self) -> DeskDoor<'_, Manual> {
        DeskDoor::new(&self.desk, &self.catalogue)
    }
}
