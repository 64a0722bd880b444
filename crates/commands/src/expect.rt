ghost use Rattle.std.specs.Prelude.{◌≡◌, ◌↔◌, ◌⊎◌, IfNone, IfSome, IsTrue};
ghost use Rattle.std.specs.Option.{option_map};
ghost use Rattle.std.specs.Str.{str_eq_ignore_ascii_case};
ghost use Rattle.commands.specs.Expect.{EndsIn, HasEndedWell, IsExpected, name_of};

use client::{Ended, Told};
use web_call::Method;

/// The exit status of a command that came to its end.
pub const DONE: u8 = 0;

/// The exit status where another answer came than the one that is expected, or one that refuses what was asked.
pub const UNMET: u8 = 3;

/// The names that health.proto gives to statuses, by their numbers.
pub static STATUS_NAMES: [&str; 4] = ["UNKNOWN", "SERVING", "NOT_SERVING", "SERVICE_UNKNOWN"];

/// The name that health.proto gives to the status that is spelled so, in capitals or in small letters.
pub fn status_spelled(text: &str) -> Option<&'static str>
    ensures { IfSome result (λ name. IsTrue (str_eq_ignore_ascii_case name.now text.now)) }
{
    for name in STATUS_NAMES {
        if name.eq_ignore_ascii_case(text) {
            return Some(name);
        }
    }
    None
}

/// The exit status of a call that was told this, where a status of this name may be expected.
pub fn exit_status(method: Method, expected: Option<&str>, told: &Told) -> u8
    ensures nothing { IfNone expected.entry (result ≡ 0) }
    ensures met { IfSome expected.entry (λ name. (result ≡ 0) ↔ IsExpected method name.now told.now) }
    ensures one_of_two { (result ≡ 0) ⊎ (result ≡ 3) }
{
    match expected {
        None => DONE,
        Some(name) => {
            if is_expected(method, name, told) {
                DONE
            } else {
                UNMET
            }
        }
    }
}

fn is_expected(method: Method, name: &str, told: &Told) -> bool
    ensures { IsTrue result ↔ IsExpected method name.now told.now }
{
    if !has_ended_well(method, told.end.as_ref()) {
        return false;
    }
    ends_in(&told.statuses, name)
}

fn has_ended_well(method: Method, end: Option<&Ended>) -> bool
    ensures { IsTrue result ↔ HasEndedWell method (option_map (λ ended. ended.now) end.entry) }
{
    match method {
        Method::Watch => true,
        Method::Check => match end {
            Some(ended) => ended.code == 0,
            None => false,
        },
    }
}

fn ends_in(statuses: &[u64], name: &str) -> bool
    ensures { IsTrue result ↔ EndsIn statuses.now name.now }
{
    let Some((last, _)) = statuses.split_last() else {
        return false;
    };
    match status_name(*last) {
        Some(found) => found == name,
        None => false,
    }
}

/// The name that health.proto gives to the number of a status, if it gives one.
pub fn status_name(status: u64) -> Option<&'static str>
    ensures { option_map (λ name. name.now) result ≡ name_of status }
{
    match status {
        0 => Some("UNKNOWN"),
        1 => Some("SERVING"),
        2 => Some("NOT_SERVING"),
        3 => Some("SERVICE_UNKNOWN"),
        _ => None,
    }
}
