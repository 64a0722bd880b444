ghost use Rattle.std.specs.Prelude.{◌≡◌, ◌<◌};
ghost use Rattle.std.specs.Int.{w16, w32, w64};
ghost use Rattle.entry_record.specs.Reading.{Gives, byte_at, number_at, who_at, reply_of, start_of, threshold_at, rule_at, slot_call_at, call_at, last_call_of, stored_of};

use crate::stored::Stored;
use chronicle::Who;
use desk_core::{Call, Entry, Finding, Reply, Setting, Slot};
use probe_core::{Rule, Start};

fn byte_at(bytes: &[u8]) -> Option<(u8, &[u8])>
    ensures { Gives (λ x. (x.0, x.1.now)) result (byte_at bytes.now) }
{
    match bytes {
        [] => None,
        [byte, rest @ ..] => Some((*byte, rest)),
    }
}

fn u16_at(bytes: &[u8]) -> Option<(u16, &[u8])>
    ensures { Gives (λ x. (x.0, x.1.now)) result (number_at w16 bytes.now) }
{
    if bytes.len() < 2 {
        return None;
    }
    let (front, rest) = bytes.split_at(2);
    Some((u16::from_le_bytes([front[0], front[1]]), rest))
}

fn u32_at(bytes: &[u8]) -> Option<(u32, &[u8])>
    ensures { Gives (λ x. (x.0, x.1.now)) result (number_at w32 bytes.now) }
{
    if bytes.len() < 4 {
        return None;
    }
    let (front, rest) = bytes.split_at(4);
    let number = u32::from_le_bytes([front[0], front[1], front[2], front[3]]);
    Some((number, rest))
}

fn u64_at(bytes: &[u8]) -> Option<(u64, &[u8])>
    ensures { Gives (λ x. (x.0, x.1.now)) result (number_at w64 bytes.now) }
{
    if bytes.len() < 8 {
        return None;
    }
    let (front, rest) = bytes.split_at(8);
    let number = u64::from_le_bytes([
        front[0], front[1], front[2], front[3], front[4], front[5], front[6], front[7],
    ]);
    Some((number, rest))
}

#[tactic(auto, unfolding(crate::specs::Reading::who_at))]
fn who_at(bytes: &[u8]) -> Option<(Who, &[u8])>
    ensures { Gives (λ x. (x.0, x.1.now)) result (who_at bytes.now) }
{
    let (code, rest) = byte_at(bytes)?;
    match code {
        0 => Some((Who::Setup, rest)),
        1 => {
            let (number, rest) = u32_at(rest)?;
            Some((Who::Session(number), rest))
        }
        2 => Some((Who::Expiry, rest)),
        _ => None,
    }
}

#[tactic(auto, unfolding(crate::specs::Reading::reply_of))]
fn reply_of(code: u8) -> Option<Reply>
    ensures { result ≡ reply_of code }
{
    match code {
        0 => Some(Reply::Done),
        1 => Some(Reply::Replaced),
        2 => Some(Reply::Missing),
        3 => Some(Reply::WrongKind),
        4 => Some(Reply::Ignored),
        _ => None,
    }
}

#[tactic(auto, unfolding(crate::specs::Reading::start_of))]
fn start_of(code: u8) -> Option<Start>
    ensures { result ≡ start_of code }
{
    match code {
        0 => Some(Start::Up),
        1 => Some(Start::Unknown),
        _ => None,
    }
}

#[tactic(auto, unfolding(crate::specs::Reading::threshold_at))]
fn threshold_at(bytes: &[u8]) -> Option<(Rule, &[u8])>
    ensures { Gives (λ x. (x.0, x.1.now)) result (threshold_at bytes.now) }
{
    let (fall, rest) = u32_at(bytes)?;
    let (rise, rest) = u32_at(rest)?;
    let (code, rest) = byte_at(rest)?;
    let start = start_of(code)?;
    Some((Rule::Threshold(fall, rise, start), rest))
}

#[tactic(auto, unfolding(crate::specs::Reading::rule_at))]
fn rule_at(bytes: &[u8]) -> Option<(Rule, &[u8])>
    ensures { Gives (λ x. (x.0, x.1.now)) result (rule_at bytes.now) }
{
    let (code, rest) = byte_at(bytes)?;
    match code {
        0 => threshold_at(rest),
        1 => Some((Rule::Manual, rest)),
        2 => {
            let (mask, rest) = u16_at(rest)?;
            Some((Rule::Depends(mask), rest))
        }
        _ => None,
    }
}

#[tactic(auto, unfolding(crate::specs::Reading::slot_call_at))]
fn slot_call_at(code: u8, bytes: &[u8]) -> Option<(Call, &[u8])>
    ensures { Gives (λ x. (x.0, x.1.now)) result (slot_call_at code bytes.now) }
{
    let (number, rest) = byte_at(bytes)?;
    let slot = Slot::new(number)?;
    match code {
        0 => {
            let (rule, rest) = rule_at(rest)?;
            Some((Call::Register(slot, rule), rest))
        }
        1 => Some((Call::Retire(slot), rest)),
        2 => Some((Call::Observe(slot, Finding::Pass), rest)),
        3 => Some((Call::Observe(slot, Finding::Fail), rest)),
        4 => Some((Call::Set(slot, Setting::Up), rest)),
        5 => Some((Call::Set(slot, Setting::Down), rest)),
        _ => None,
    }
}

#[tactic(auto, unfolding(crate::specs::Reading::call_at))]
fn call_at(bytes: &[u8]) -> Option<(Call, &[u8])>
    ensures { Gives (λ x. (x.0, x.1.now)) result (call_at bytes.now) }
{
    let (code, rest) = byte_at(bytes)?;
    match code {
        6 => Some((Call::Shutdown, rest)),
        7 => Some((Call::Resume, rest)),
        _ => slot_call_at(code, rest),
    }
}

/// The call at the end, which takes all of the bytes.
#[tactic(auto, unfolding(crate::specs::Reading::last_call_of))]
fn last_call_of(bytes: &[u8]) -> Option<Call>
    ensures { result ≡ last_call_of bytes.now }
{
    match call_at(bytes) {
        None => None,
        Some((call, rest)) => { if rest.is_empty() { Some(call) } else { None } }
    }
}

#[tactic(auto, unfolding(crate::specs::Reading::stored_of))]
pub(crate) fn stored_of(bytes: &[u8]) -> Option<Stored>
    ensures { result ≡ stored_of bytes.now }
{
    let (micros, rest) = u64_at(bytes)?;
    let (who, rest) = who_at(rest)?;
    let (seat, rest) = u16_at(rest)?;
    let (code, rest) = byte_at(rest)?;
    let reply = reply_of(code)?;
    let call = last_call_of(rest)?;
    let entry = Entry { seat, call, reply };
    Some(Stored { entry, micros, who })
}
