ghost use Rattle.std.specs.Prelude.{◌≡◌, ◌++◌, ◌⊎◌};
ghost use Rattle.running.specs.ByteOrderMark.{mark};

/// What some editors put before a text.
const MARK: &[u8] = b"\xef\xbb\xbf";

/// The most bytes of a script, with the mark.
const MAX_LEN: usize = 65_536;

/// The bytes without a byte order mark at their front. Of more bytes than a script has it is not taken away, since more of them were not
/// read.
pub fn without_mark(mut bytes: Vec<u8>) -> Vec<u8>
    ensures { (bytes.items ≡ result.items) ⊎ (bytes.items ≡ mark ++ result.items) }
{
    if bytes.len() <= MAX_LEN && bytes.starts_with(MARK) {
        bytes.rotate_left(MARK.len());
        bytes.truncate(bytes.len() - MARK.len());
    }
    bytes
}
