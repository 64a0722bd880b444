//! A registry that keeps four entries, and four status changes.

use desk_core::{Entry, Keep, NotStored};

/// The last four.
#[derive(Drop)]
pub(crate) struct KeepFour;

impl Keep for KeepFour {
    ghost use Rattle.std.specs.Prelude.{Some};

    ghost kept = { Some 4 };

    fn kept() -> Option<u32> {
        Some(4)
    }

    fn store(&mut self, entries: &[Entry]) -> Result<(), NotStored> {
        Ok(())
    }
}
