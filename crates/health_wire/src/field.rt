ghost use Rattle.std.specs.Prelude.{◌≡◌, ◌<◌, IfOk, IfErr, IfSome, IfNone, length};
ghost use Rattle.health_wire.specs.Parts.{Begins};
ghost use Rattle.health_wire.specs.Field.{IsField, IsFieldFault, IsPayload, IsPayloadFault, field_of, payload_of, wire_type as wire_type_of, IsFieldNumber};
ghost use Rattle.health_wire.specs.Field.Payload.{Len};

use crate::fault::WireFault;
use crate::varint::varint_at;

const VARINT: u8 = 0;

const I64: u8 = 1;

const LEN: u8 = 2;

const I32: u8 = 5;

/// The greatest field number, 2^29 - 1.
const MAX_FIELD_NUMBER: u32 = 536_870_911;

/// What a field holds: of wire type 0 (VARINT), 1 (I64), 2 (LEN) or 5 (I32).
#[derive(Clone, Copy)]
pub enum Value<'a> {
    Varint(u64),
    Eight([u8; 8]),
    Bytes(&'a [u8]),
    Four([u8; 4]),
}

/// A field of a message.
#[derive(Clone, Copy)]
pub struct Field<'a> {
    pub number: u32,
    pub value: Value<'a>,
}

/// The field at the front, and the bytes after it.
pub(crate) fn field_at(bytes: &[u8]) -> Result<(Field<'_>, &[u8]), WireFault>
    ensures found { IfOk result (λ x.
        Begins (λ front. IsField front (field_of x.0)) bytes.now x.1.now) }
    ensures shorter { IfOk result (λ x. length x.1.now < length bytes.now) }
    ensures fault { IfErr result (λ fault. IsFieldFault bytes.now fault) }
{
    let (tag, after) = varint_at(bytes)?;
    let Some(number) = field_number(tag / 8) else {
        return Err(WireFault::BadTag);
    };
    let (value, rest) = value_at((tag % 8) as u8, after)?;
    Ok((Field { number, value }, rest))
}

fn field_number(number: u64) -> Option<u32>
    ensures found { IfSome result (λ n. (n ≡ number) × IsFieldNumber n) }
    ensures none { IfNone result (IsFieldNumber number → ⊥) }
{
    u32::try_from(number)
        .ok()
        .filter(|n| (1..=MAX_FIELD_NUMBER).contains(n))
}

/// The value of the wire type at the front, and the bytes after it.
fn value_at(wire_type: u8, bytes: &[u8]) -> Result<(Value<'_>, &[u8]), WireFault>
    ensures found { IfOk result (λ x.
        Begins (λ front. IsPayload front (payload_of x.0)) bytes.now x.1.now) }
    ensures wire_type { IfOk result (λ x. wire_type_of (payload_of x.0) ≡ wire_type) }
    ensures fault { IfErr result (λ fault. IsPayloadFault bytes.now wire_type fault) }
{
    match wire_type {
        VARINT => {
            let (value, rest) = varint_at(bytes)?;
            Ok((Value::Varint(value), rest))
        }
        I64 => match bytes.split_first_chunk::<8>() {
            Some((eight, rest)) => Ok((Value::Eight(*eight), rest)),
            None => Err(WireFault::Truncated),
        },
        LEN => {
            let (text, rest) = text_at(bytes)?;
            Ok((Value::Bytes(text), rest))
        }
        I32 => match bytes.split_first_chunk::<4>() {
            Some((four, rest)) => Ok((Value::Four(*four), rest)),
            None => Err(WireFault::Truncated),
        },
        _ => Err(WireFault::BadTag),
    }
}

/// The bytes behind their length at the front, and the bytes after them.
fn text_at(bytes: &[u8]) -> Result<(&[u8], &[u8]), WireFault>
    ensures found { IfOk result (λ x.
        Begins (λ front. IsPayload front (Len x.0.now)) bytes.now x.1.now) }
    ensures fault { IfErr result (λ fault. IsPayloadFault bytes.now 2 fault) }
{
    let (len, rest) = varint_at(bytes)?;
    match rest.split_at_checked(len as usize) {
        Some((text, after)) => Ok((text, after)),
        None => Err(WireFault::Truncated),
    }
}
