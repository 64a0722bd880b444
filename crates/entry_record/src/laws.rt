ghost use Rattle.std.specs.Prelude.{◌≡◌, Some};
ghost use Rattle.entry_record.specs.Format.{bytes_of};
ghost use Rattle.entry_record.specs.Range.{IsStored};
ghost use Rattle.entry_record.specs.declared.stored.Stored.{Stored as StoredEntry};

use crate::stored::Stored;

/// What was written is read back, for each entry. Two entries with the same bytes are the same.
pub fn read_gives_back(stored: &Stored) -> Option<Stored>
    ensures back { result ≡ Some stored.now }
    ensures one { (a b : StoredEntry) → IsStored a → IsStored b
        → bytes_of a ≡ bytes_of b → a ≡ b }
{
    Stored::read(stored.write().as_bytes())
}
