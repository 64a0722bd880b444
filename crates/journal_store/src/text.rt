ghost use Rattle.std.specs.Prelude.{◌≡◌, ◌+◌, ◌*◌, ◌++◌, ◌∷◌, [], ℕ, List, max, length};
ghost use Rattle.journal_store.specs.Turned.{AreTurned};

use crate::preface::Preface;
use std::mem;

/// The preface and the blocks of a file, and how long these may be before the file is written anew.
#[derive(Drop)]
pub(crate) struct Text {
    pub preface: Preface,
    pub written: Vec<u8>,
    pub limit: usize,
}

/// What takes the place of a file that is written anew: its preface, and its blocks with a closed gate behind them.
#[derive(Drop)]
pub(crate) struct Renewed {
    pub preface: Preface,
    pub file: Vec<u8>,
}

/// How much longer a file may be before it is tried again to write it anew.
const LATER: usize = 1 << 20;

impl Text {
    /// Waits for more blocks before the file is written anew.
    pub(crate) fn put_off(&mut self)
        ensures front { self.new.preface ≡ self.old.preface }
        ensures same { self.new.written.items ≡ self.old.written.items }
        ensures later { self.new.limit ≡ length self.old.written.items + 1048576 }
    {
        self.limit = self.written.len() + LATER;
    }
}

impl Renewed {
    /// The text, which may be twice as long before the file is written anew, and so long in any case.
    pub(crate) fn text(self, least: usize) -> Text
        ensures front { result.preface ≡ self.preface }
        ensures open { (written : List ℕ) → self.file.items ≡ written ++ 0 ∷ []
            → result.written.items ≡ written }
        ensures limit { result.limit ≡ max (2 * length result.written.items) least }
    {
        let Renewed {
            preface,
            file: mut written,
        } = self;
        written.truncate(written.len().saturating_sub(1));
        let limit = (2 * written.len()).max(least);
        Text {
            preface,
            written,
            limit,
        }
    }
}

/// Puts the other text in the place of this one, if there is one. Says whether there is.
pub(crate) fn turn(text: &mut Text, other: &mut Option<Text>) -> bool
    ensures { AreTurned text.old other.old text.new other.new }
{
    let Some(found) = other.take() else {
        return false;
    };
    *other = Some(mem::replace(text, found));
    true
}
