ghost use Rattle.std.specs.Prelude.{◌≡◌, ◌+◌, ◌<◌, ◌≤◌, ◌∷◌, ◌++◌, [], length};
ghost use Rattle.entry_record.specs.Format.{who_bytes, reply_code, start_code, rule_bytes, call_bytes};
ghost use Rattle.entry_record.specs.Range.{IsWho, IsRule, IsCall};

use crate::written::Written;
use chronicle::Who;
use desk_core::{Call, Finding, Reply, Setting, Slot};
use probe_core::{Rule, Start};

pub(crate) fn put_who(written: &mut Written, who: Who)
    requires { length written.old ≤ 23 }
    ensures bytes { written.new ≡ written.old ++ who_bytes who }
    ensures few { length written.new ≤ length written.old + 5 }
    ensures fits { IsWho who }
{
    match who {
        Who::Setup => written.put(0),
        Who::Session(number) => {
            written.put(1);
            written.put_u32(number);
        }
        Who::Expiry => written.put(2),
    }
}

pub(crate) fn reply_code(reply: Reply) -> u8
    ensures { result ≡ reply_code reply }
{
    match reply {
        Reply::Done => 0,
        Reply::Replaced => 1,
        Reply::Missing => 2,
        Reply::WrongKind => 3,
        Reply::Ignored => 4,
    }
}

fn start_code(start: Start) -> u8
    ensures { result ≡ start_code start }
{
    match start {
        Start::Up => 0,
        Start::Unknown => 1,
    }
}

fn put_rule(written: &mut Written, rule: Rule)
    requires { length written.old ≤ 18 }
    ensures bytes { written.new ≡ written.old ++ rule_bytes rule }
    ensures fits { IsRule rule }
{
    match rule {
        Rule::Threshold(fall, rise, start) => {
            written.put(0);
            written.put_u32(fall);
            written.put_u32(rise);
            written.put(start_code(start));
        }
        Rule::Manual => written.put(1),
        Rule::Depends(mask) => {
            written.put(2);
            written.put_u16(mask);
        }
    }
}

fn put_with_slot(written: &mut Written, code: u8, slot: Slot)
    requires { length written.old ≤ 26 }
    ensures bytes { written.new ≡ written.old ++ code ∷ slot ∷ [] }
    ensures range { slot < 16 }
{
    written.put(code);
    written.put(slot.number());
}

pub(crate) fn put_call(written: &mut Written, call: Call)
    requires { length written.old ≤ 16 }
    ensures bytes { written.new ≡ written.old ++ call_bytes call }
    ensures fits { IsCall call }
{
    match call {
        Call::Register(slot, rule) => {
            put_with_slot(written, 0, slot);
            put_rule(written, rule);
        }
        Call::Retire(slot) => put_with_slot(written, 1, slot),
        Call::Observe(slot, finding) => match finding {
            Finding::Pass => put_with_slot(written, 2, slot),
            Finding::Fail => put_with_slot(written, 3, slot),
        },
        Call::Set(slot, setting) => match setting {
            Setting::Up => put_with_slot(written, 4, slot),
            Setting::Down => put_with_slot(written, 5, slot),
        },
        Call::Shutdown => written.put(6),
        Call::Resume => written.put(7),
    }
}
