//! CRC-32 as in gzip and Ethernet.

ghost use Rattle.std.specs.Prelude.{◌≡◌};
ghost use Rattle.record_log.specs.Checksum.{crc_bit, crc_byte, crc32};

const POLYNOMIAL: u32 = 0xEDB8_8320;

fn crc_bit(rest: u32) -> u32
    ensures { result ≡ crc_bit rest }
{
    if rest % 2 == 1 {
        (rest / 2) ^ POLYNOMIAL
    } else {
        rest / 2
    }
}

#[tactic(auto, unfolding(crate::specs::Checksum::crc_byte))]
fn crc_byte(rest: u32, byte: u8) -> u32
    ensures { result ≡ crc_byte rest byte }
{
    let half = crc_bit(crc_bit(crc_bit(crc_bit(rest ^ u32::from(byte)))));
    crc_bit(crc_bit(crc_bit(crc_bit(half))))
}

/// The checksum of these bytes.
#[tactic(auto, unfolding(crate::specs::Checksum::crc32))]
pub fn crc32(bytes: &[u8]) -> u32
    ensures { result ≡ crc32 bytes.now }
{
    let mut rest = u32::MAX;
    for byte in bytes {
        rest = crc_byte(rest, *byte);
    }
    rest ^ u32::MAX
}
