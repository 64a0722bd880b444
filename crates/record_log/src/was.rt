/// What a device in memory was after a call: its bytes, and the place and length of the write that
/// made them. A sync has none.
#[derive(Drop)]
pub struct Was {
    pub bytes: Vec<u8>,
    pub write: Option<(usize, usize)>,
}
