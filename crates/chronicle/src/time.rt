ghost use Rattle.std.specs.Prelude.{◌≡◌, ◌+◌, ◌/◌, ◌%◌, ◌<◌, length, min, pos};
ghost use Rattle.chronicle.specs.Time.{IsTextOf, utc_text};
ghost use Rattle.jiff.specs.Words.{civil_nanos};

use jiff::civil::DateTime;
use jiff::tz::Offset;
use jiff::{SignedDuration, Timestamp};
use std::fmt;
use std::marker::Model;
use std::time::Clock;

/// The last microsecond of the year 9999, since 1970-01-01T00:00:00Z.
const LAST_MICROS: u64 = 253_402_300_799_999_999;

/// A point of wall-clock time as RFC 3339 text in UTC, as `2026-11-26T01:45:09.123456Z`.
#[derive(Clone, Copy, PartialEq, Eq)]
pub struct TimeText([u8; 27]);

/// Its bytes.
impl Model for TimeText {
    ghost use Rattle.std.specs.Prelude.{ℕ, List};
    ghost use Rattle.std.specs.Str.{IsAscii};

    ghost Value = { List ℕ };

    ghost view = { λ text. text.0 };

    ghost inverse = { λ bytes. record { 0 = bytes } };

    ghost invariant = { λ text. IsAscii text.0 };
}

impl TimeText {
    /// The text as bytes of ASCII.
    pub fn as_bytes(&self) -> &[u8; 27]
        ensures bytes { result.now ≡ self.now }
        ensures len { length self.now ≡ 27 }
    {
        &self.0
    }

    /// The text.
    pub fn as_str(&self) -> &str
        ensures text { result.now ≡ self.now }
        ensures len { length self.now ≡ 27 }
    {
        match str::from_utf8(&self.0) {
            Ok(text) => text,
            Err(_) => unreachable!(),
        }
    }
}

impl fmt::Display for TimeText {
    ghost use Rattle.std.specs.Prelude.{Some};

    ghost output = { λ text. Some text };

    fn fmt<W: fmt::Write>(&self, f: &mut fmt::Formatter<W>) -> fmt::Result {
        f.write_str(self.as_str())
    }
}

impl fmt::Debug for TimeText {
    fn fmt<W: fmt::Write>(&self, f: &mut fmt::Formatter<W>) -> fmt::Result {
        f.write_str(self.as_str())
    }
}

/// The wall clock's time in microseconds since 1970-01-01T00:00:00Z; 0 where the clock cannot be read or is set before that.
pub fn wall_micros<C: Clock>(clock: &C) -> u64 {
    match clock.since_1970() {
        Ok(since) => u64::try_from(since.as_micros()).unwrap_or(u64::MAX),
        Err(_) => 0,
    }
}

/// The text of the time so many microseconds after 1970-01-01T00:00:00Z. Times past the year 9999 have the text of its last
/// microsecond.
pub fn time_text(micros: u64) -> TimeText
    ensures { IsTextOf (min micros 253402300799999999) result }
{
    let micros = micros.min(LAST_MICROS) as i64;
    text_of(start_of_1970().saturating_add(SignedDuration::from_micros(micros)))
}

fn start_of_1970() -> DateTime
    ensures { civil_nanos result ≡ pos 0 }
{
    Offset::UTC.to_datetime(Timestamp::UNIX_EPOCH)
}

/// The last two decimal digits of a number.
fn digits(number: u32) -> (u8, u8)
    ensures tens { result.0 ≡ 48 + number / 10 % 10 }
    ensures ones { result.1 ≡ 48 + number % 10 }
    ensures tens_ascii { result.0 < 128 }
    ensures ones_ascii { result.1 < 128 }
{
    (b'0' + (number / 10 % 10) as u8, b'0' + (number % 10) as u8)
}

fn text_of(at: DateTime) -> TimeText
    ensures { result ≡ utc_text at }
{
    let year = u32::from(at.year().unsigned_abs());
    let micros = at.subsec_nanosecond().unsigned_abs() / 1_000;
    let (y0, y1) = digits(year / 100);
    let (y2, y3) = digits(year);
    let (m0, m1) = digits(u32::from(at.month().unsigned_abs()));
    let (d0, d1) = digits(u32::from(at.day().unsigned_abs()));
    let (h0, h1) = digits(u32::from(at.hour().unsigned_abs()));
    let (n0, n1) = digits(u32::from(at.minute().unsigned_abs()));
    let (s0, s1) = digits(u32::from(at.second().unsigned_abs()));
    let (f0, f1) = digits(micros / 10_000);
    let (f2, f3) = digits(micros / 100);
    let (f4, f5) = digits(micros);
    TimeText([
        y0, y1, y2, y3, b'-', m0, m1, b'-', d0, d1, b'T', h0, h1, b':', n0, n1, b':', s0, s1, b'.',
        f0, f1, f2, f3, f4, f5, b'Z',
    ])
}
