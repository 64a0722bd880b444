use std::alloc::{AllocError, Global};

/// The first block asked for, in bytes: more than any machine has.
const LARGEST_BLOCK: usize = 1 << 40;

/// The room of most tests, in bytes.
const SMALL_ROOM: usize = 16_384;

/// Room for the blocks, which get smaller by half each time that one is refused.
const MAX_BLOCKS: usize = 20_000;

/// All memory of the process but a room, for as long as it is held.
///
/// While it is held nothing but the call under test may allocate. It serves a test of one thread.
#[derive(Drop)]
pub struct Scarcity {
    alloc: Global,
    room: usize,
    blocks: Vec<Vec<u8>>,
}

impl Scarcity {
    /// Takes all memory but `room` bytes. Keep the room below 128 KiB, so that the C library finds it again.
    pub fn new(alloc: Global, room: usize) -> Result<Scarcity, AllocError> {
        let spared: Vec<u8> = Vec::with_capacity(alloc, room)?;
        let mut blocks = Vec::with_capacity(alloc, MAX_BLOCKS)?;
        let mut size = LARGEST_BLOCK;
        for _ in 0..MAX_BLOCKS {
            if blocks.len() == blocks.capacity() || size == 0 {
                break;
            }
            match Vec::with_capacity(alloc, size) {
                Ok(block) => blocks.push(block)?,
                Err(_) => size /= 2,
            }
        }
        drop(spared);
        Ok(Scarcity {
            alloc,
            room,
            blocks,
        })
    }

    /// Takes all memory but a room of 16 KiB.
    pub fn with_small_room(alloc: Global) -> Result<Scarcity, AllocError> {
        Scarcity::new(alloc, SMALL_ROOM)
    }

    /// Takes the room but for its last `left` bytes, for as long as the result is held.
    pub fn leave(&self, left: usize) -> Result<Vec<u8>, AllocError> {
        Vec::with_capacity(self.alloc, self.room.saturating_sub(left))
    }
}
