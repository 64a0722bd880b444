//! Tests of the watchdog and the diary over halls, by public calls alone, at readings of the clock that a test picks.

mod lagging;
mod making;
mod reading;
mod reporting;
mod saying;
mod telling;
