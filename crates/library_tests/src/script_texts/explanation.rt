use crate::same::same;
use script::{ScriptFault, explain};

/// Faults that are none of the text's own, and what is said then.
static ELSEWHERE: [(&[u8], ScriptFault, &str); 4] = [
    (
        b"catalogue db -\nup db",
        ScriptFault::BadLine(9),
        "script line 9",
    ),
    // Without a catalogue there is nothing to read a line by.
    (
        b"bad\nup  db",
        ScriptFault::BadLine(2),
        "script line 2: \"up  db\"",
    ),
    (b"\xff", ScriptFault::BadLine(1), "script line 1"),
    (b"", ScriptFault::TooLong, "script too long"),
];

#[test]
fn tells_only_what_it_finds(rt: HostRuntime) {
    for &(bytes, fault, expected) in &ELSEWHERE {
        let found = explain(rt.alloc(), bytes, fault).expect(&rt, "memory");
        same(&rt, &found.as_str(), &expected, &bytes);
    }
}
