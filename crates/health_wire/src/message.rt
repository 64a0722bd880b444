ghost use Rattle.std.specs.Prelude.{◌≡◌, ◌≢◌, IfOk, IfErr, map};
ghost use Rattle.health_wire.specs.Field.{field_of};
ghost use Rattle.health_wire.specs.Message.{IsMessage, IsFault};

use crate::fault::WireFault;
use crate::field::{Field, field_at};
use std::alloc::Global;

/// Reads all fields of a message, in order.
pub fn fields(alloc: Global, bytes: &[u8]) -> Result<Vec<Field<'_>>, WireFault>
    ensures ok { IfOk result (λ fields. IsMessage bytes.now (map field_of fields.items)) }
    ensures err { IfErr result (λ fault. fault ≢ WireFault.NoMemory → IsFault bytes.now fault) }
{
    let mut fields = Vec::new(alloc);
    let mut rest = bytes;
    while !rest.is_empty() {
        let (field, after) = field_at(rest)?;
        fields.push(field)?;
        rest = after;
    }
    Ok(fields)
}
