ghost use Rattle.std.specs.Prelude.{◌≡◌, IfOk, IfErr, unwrap_or};
ghost use Rattle.std.specs.Str.{IsUtf8};
ghost use Rattle.health_wire.specs.Field.{field_of};
ghost use Rattle.health_wire.specs.Request.{IsRequest, IsRequestBytes, IsRequestFault, service_in};

use crate::fault::{NoMemory, WireFault};
use crate::field::{Field, Value, field_at};
use crate::varint::put_varint;
use std::alloc::Global;

/// The field number of `service` in `HealthCheckRequest`.
const SERVICE: u32 = 1;

/// The tag of a length-delimited `service`.
const SERVICE_TAG: u8 = 10;

/// Reads the name of the service that a `HealthCheckRequest` asks for.
pub fn read_request(bytes: &[u8]) -> Result<&str, WireFault>
    ensures ok { IfOk result (λ name. IsRequest bytes.now name.now) }
    ensures text { IfOk result (λ name. IsUtf8 name.now) }
    ensures err { IfErr result (λ fault. IsRequestFault bytes.now fault) }
{
    let mut service: &[u8] = b"";
    let mut rest = bytes;
    while !rest.is_empty() {
        let (field, after) = field_at(rest)?;
        service = service_after(service, field);
        rest = after;
    }
    match str::from_utf8(service) {
        Ok(name) => Ok(name),
        Err(_) => Err(WireFault::NotText),
    }
}

/// What the field gives, or else what was given before it: the last one wins.
fn service_after<'a>(service: &'a [u8], field: Field<'a>) -> &'a [u8]
    ensures { result.now ≡ unwrap_or (service_in (field_of field.entry)) service.now }
{
    match field.value {
        Value::Bytes(text) if field.number == SERVICE => text,
        _ => service,
    }
}

/// Writes the `HealthCheckRequest` for a service. The empty name is proto3's default, which no writer spells out.
pub fn write_request(alloc: Global, name: &str) -> Result<Vec<u8>, NoMemory>
    ensures { IfOk result (λ bytes. IsRequestBytes bytes.items name.now) }
{
    let mut bytes = Vec::new(alloc);
    if !name.is_empty() {
        bytes.push(SERVICE_TAG)?;
        put_varint(&mut bytes, name.len() as u64)?;
        bytes.extend_from_slice(name.as_bytes())?;
    }
    Ok(bytes)
}
