ghost use Rattle.std.specs.Prelude.{◌≡◌, ◌≤◌, length, take};
ghost use Rattle.record_log.specs.Log.{blocks, texts};

/// The bytes of a block beside those of its record: a gate, a length and a checksum.
const AROUND: usize = 6;

/// The place in a file at which the record of this number begins, where the blocks of all its records end at another.
pub(crate) fn place_of(records: &[Vec<u8>], number: usize, end: usize) -> usize
    requires inside { number ≤ length records.now }
    requires end { end ≡ length (blocks (texts records.now)) }
    ensures { result ≡ length (blocks (texts (take number records.now))) }
{
    let mut place = end;
    for record in &records[number..] {
        place -= record.len() + AROUND;
    }
    place
}
