use crate::same::holds;
use health_wire::{Field, Value, fields};

/// The name `a` in field 1, and the number 5 in field 9.
const MESSAGE: &[u8] = b"\x0a\x01a\x48\x05";

#[test]
fn fields_are_read_in_order(rt: HostRuntime) {
    let found = fields(rt.alloc(), MESSAGE).expect(&rt, "fields");
    holds(&rt, found.len() == 2, "there are two");
    let Field { number, value } = found[0];
    let is_name = matches!(value, Value::Bytes([b'a']));
    holds(&rt, number == 1 && is_name, "the name is first");
    let Field { number, value } = found[1];
    let is_five = matches!(value, Value::Varint(5));
    holds(&rt, number == 9 && is_five, "the number is second");
}
