ghost use Rattle.std.specs.Prelude.{◌≡◌, ◌+◌, ◌^◌, ◌<◌, ◌≤◌, ◌∷◌, ◌++◌, vec_len, vec_capacity, OnOk, OnErr};
ghost use Rattle.std.specs.Int.{w32, to_be_bytes};

use crate::NoMemory;

/// A frame that was taken off a stream.
#[derive(Drop)]
pub struct Frame {
    pub flag: u8,
    pub body: Vec<u8>,
}

/// Writes a frame's flag and length, and leaves room for its content.
pub(crate) fn open_frame(out: &mut Vec<u8>, flag: u8, len: usize) -> Result<(), NoMemory>
    requires { len < 2 ^ 32 }
    ensures ok { OnOk result (out.new.items ≡ out.old.items ++ flag ∷ to_be_bytes w32 len) }
    ensures room { OnOk result (vec_len out.new + len ≤ vec_capacity out.new) }
    ensures err { OnErr result (out.new.items ≡ out.old.items) }
    ensures capacity { vec_capacity out.old ≤ vec_capacity out.new }
    ensures full { OnErr result (vec_capacity out.old < vec_len out.old + 5 + len) }
{
    out.reserve(len + 5)?;
    out.push_reserved(flag);
    out.extend_from_slice(&(len as u32).to_be_bytes()).unwrap();
    Ok(())
}
