use crate::same::same;
use crew::CallEnd;
use desk_core::Desk;
use probe_core::Manual;
use server::Served;
use web_call::{ExchangeFault, Why};

/// What no client brings about for certain.
static ENDS: [CallEnd; 3] = [
    CallEnd::Fault(ExchangeFault {
        why: Why::Write,
        frames: 2,
    }),
    CallEnd::Fault(ExchangeFault {
        why: Why::NoMemory,
        frames: 0,
    }),
    CallEnd::Unopened,
];

const OUTPUT: &str = "call 0 fault write
call 1 fault memory
call 2 unopened
journal 0
";

#[test]
fn tells_how_calls_failed(rt: HostRuntime) {
    let alloc = rt.alloc();
    let desk: Desk<Manual> = Desk::new(alloc, 3);
    let served = Served {
        calls: Vec::from_slice(alloc, ENDS.as_slice()).expect(&rt, "memory"),
        orders: Vec::new(alloc),
        desk,
    };
    let mut output = String::new(alloc);
    served.put(&mut output).expect(&rt, "memory");
    same(&rt, &output.as_str(), &OUTPUT, &"the calls");
}
