ghost use Rattle.std.specs.Prelude.{◌≡◌, ◌+◌, ◌<◌, ◌^◌, length};

use desk_core::Catalogue;
use entry_record::Stored;
use journal_store::Preface;

/// A journal as its file has it.
#[derive(Drop)]
pub(crate) struct Journal {
    pub preface: Preface,
    pub catalogue: Catalogue,
    pub stored: Vec<Stored>,
    ghost names: { catalogue ≡ preface.names },
    ghost few: { preface.base + length stored.items < 2 ^ 32 },
}

impl Journal {
    ghost use Rattle.std.specs.Prelude.{◌≡◌, ◌<◌, length};
    ghost use Rattle.journal_lines.specs.Journal.{number_at};

    /// The number in the history of the entry at this place of the file. One that stands for older entries has none.
    pub(crate) fn number(&self, place: usize) -> Option<u32>
        requires { place < length self.now.stored.items }
        ensures { result ≡ number_at self.now.preface place }
    {
        if place < self.preface.condensed() as usize {
            None
        } else {
            Some((self.preface.base() + place as u64) as u32)
        }
    }
}
