//! Tests of halls, of the crews and the watchdog over them, and of the sockets of calls.

mod copies;
mod crews;
mod doors;
mod faults;
mod guests;
mod notes;
mod races;
mod sockets;
mod watchdogs;
