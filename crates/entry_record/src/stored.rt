use crate::reading::stored_of;
use crate::writing::{put_call, put_who, reply_code};
use crate::written::Written;
use chronicle::Who;
use desk_core::Entry;

/// An entry of the journal, when it was made and who asked for it.
#[derive(Clone, Copy, Debug, PartialEq, Eq)]
pub struct Stored {
    pub entry: Entry,
    /// Microseconds since 1970, by the server's clock.
    pub micros: u64,
    pub who: Who,
}

impl Stored {
    ghost use Rattle.std.specs.Prelude.{◌≡◌, ◌≤◌, length, Some, IfSome, IfNone};
    ghost use Rattle.entry_record.specs.Format.{bytes_of};
    ghost use Rattle.entry_record.specs.Range.{IsStored};
    ghost use Rattle.entry_record.specs.declared.stored.Stored.{Stored as StoredEntry};

    /// The bytes of this entry. They take no memory of the heap.
    pub fn write(&self) -> Written
        ensures bytes { result ≡ bytes_of self.now }
        ensures few { length result ≤ 28 }
        ensures fits { IsStored self.now }
    {
        let mut written = Written::new();
        written.put_u64(self.micros);
        put_who(&mut written, self.who);
        written.put_u16(self.entry.seat);
        written.put(reply_code(self.entry.reply));
        put_call(&mut written, self.entry.call);
        written
    }

    /// The entry that has these bytes, all of them.
    pub fn read(bytes: &[u8]) -> Option<Stored>
        ensures some { IfSome result (λ stored.
            IsStored stored × (bytes.now ≡ bytes_of stored)) }
        ensures none { IfNone result ((stored : StoredEntry)
            → IsStored stored → bytes.now ≡ bytes_of stored → ⊥) }
        ensures only { (stored : StoredEntry) → IsStored stored
            → bytes.now ≡ bytes_of stored → result ≡ Some stored }
    {
        stored_of(bytes)
    }
}
