/// How many bytes a record has in a file beside its own: its gate, its length and its checksum.
const FRAME_LEN: usize = 6;

/// The place in a file at which the record of this number begins.
pub(crate) fn place_of(found: &[Vec<u8>], number: usize) -> usize {
    let mut place: usize = 0;
    for record in found.iter().take(number) {
        place = place.saturating_add(record.len() + FRAME_LEN);
    }
    place
}
