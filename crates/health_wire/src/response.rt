ghost use Rattle.std.specs.Prelude.{◌≡◌, ◌≤◌, List, ℕ, length, IfOk, IfErr};
ghost use Rattle.health_wire.specs.Field.{field_of};
ghost use Rattle.health_wire.specs.Message.{IsFault};
ghost use Rattle.health_wire.specs.Response.{IsResponse, response_bytes, status_in};

use crate::fault::WireFault;
use crate::field::{Field, Value, field_at};
use crate::serving::Serving;
use std::marker::Model;

/// The field number of `status` in `HealthCheckResponse`.
const STATUS: u32 = 1;

/// A written `HealthCheckResponse`.
#[derive(Drop)]
pub struct Message {
    bytes: &'static [u8],
}

impl Model for Message {
    ghost Value = { List ℕ };

    ghost view = { λ message. message.bytes.now };

    ghost invariant = { λ message. length message.bytes.now ≤ 2 };
}

impl Message {
    pub fn as_slice(&self) -> &'static [u8]
        ensures bytes { result.now ≡ self.now }
        ensures short { length result.now ≤ 2 }
    {
        self.bytes
    }
}

/// Writes a status as field 1. The status 0 is proto3's default, which no writer spells out.
pub fn write_response(status: Serving) -> Message
    ensures { result ≡ response_bytes status }
{
    let bytes: &'static [u8] = match status {
        Serving::Unknown => b"",
        Serving::Serving => b"\x08\x01",
        Serving::NotServing => b"\x08\x02",
        Serving::ServiceUnknown => b"\x08\x03",
    };
    Message { bytes }
}

/// Reads the number of the status that a `HealthCheckResponse` tells, whether `Serving` has it or not.
pub fn read_response(bytes: &[u8]) -> Result<u64, WireFault>
    ensures ok { IfOk result (λ number. IsResponse bytes.now number) }
    ensures err { IfErr result (λ fault. IsFault bytes.now fault) }
{
    let mut status = 0;
    let mut rest = bytes;
    while !rest.is_empty() {
        let (field, after) = field_at(rest)?;
        if let Some(number) = status_number(field) {
            status = number;
        }
        rest = after;
    }
    Ok(status)
}

fn status_number(field: Field<'_>) -> Option<u64>
    ensures { result ≡ status_in (field_of field.entry) }
{
    match field.value {
        Value::Varint(number) if field.number == STATUS => Some(number),
        _ => None,
    }
}
