ghost use Rattle.std.specs.Prelude.{◌≡◌, ◌+◌, ◌<◌, ◌≤◌, ◌%◌, ◌^◌, ℕ, length, take, min, IfOk, IfErr, IfSome, IfNone, OnOk};
ghost use Rattle.health_wire.specs.Varint.{IsVarint, IsVarintForm, IsVarintFault, IsShortestVarint, AllContinue, groups_value};
ghost use Rattle.health_wire.specs.Parts.{Appends, Begins};

use crate::fault::{NoMemory, WireFault};

/// A varint has at most this many bytes: seven bits each, for 64 bits.
const MAX_VARINT_LEN: usize = 10;

/// The varint at the front, and the bytes after it.
pub(crate) fn varint_at(bytes: &[u8]) -> Result<(u64, &[u8]), WireFault>
    ensures found { IfOk result (λ x. Begins (λ front. IsVarint front x.0) bytes.now x.1.now) }
    ensures fault { IfErr result (λ fault. IsVarintFault bytes.now fault) }
{
    match varint_len(bytes) {
        Some(len) => {
            let (varint, rest) = bytes.split_at(len);
            Ok((varint_value(varint), rest))
        }
        None if bytes.len() < MAX_VARINT_LEN => Err(WireFault::Truncated),
        None => Err(WireFault::BadVarint),
    }
}

fn varint_len(bytes: &[u8]) -> Option<usize>
    ensures within { IfSome result (λ len. len ≤ length bytes.now) }
    ensures found { IfSome result (λ len. IsVarintForm (take len bytes.now)) }
    ensures none { IfNone result (AllContinue bytes.now (min (length bytes.now) 10)) }
{
    let front = &bytes[..bytes.len().min(MAX_VARINT_LEN)];
    for (i, byte) in front.iter().enumerate() {
        if *byte < 0x80 {
            return Some(i + 1);
        }
    }
    None
}

fn varint_value(varint: &[u8]) -> u64
    ensures { result ≡ groups_value varint.now % 2 ^ 64 }
{
    varint.iter().rev().fold(0, |high: u64, byte| {
        high.wrapping_mul(128).wrapping_add(u64::from(*byte % 128))
    })
}

/// Writes the shortest spelling of the value at the end.
pub(crate) fn put_varint(out: &mut Vec<u8>, value: u64) -> Result<(), NoMemory>
    ensures { OnOk result
        (Appends (λ varint. IsShortestVarint varint value) out.old.items out.new.items) }
{
    let mut rest = value;
    while rest >= 0x80 {
        out.push((rest % 128) as u8 + 0x80)?;
        rest /= 128;
    }
    out.push(rest as u8)?;
    Ok(())
}
