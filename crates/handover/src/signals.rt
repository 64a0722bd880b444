//! Signals that ask a process to stop, where it was started with them blocked. Such a signal stays pending, and Linux tells so.

ghost use Rattle.std.specs.Prelude.{◌≡◌, ◌==◌, ◌↔◌, ℕ, nat_eq, IfSome, IfNone, IsTrue, bit_and, find};
ghost use Rattle.std.specs.List.{slice_split, starts_with};
ghost use Rattle.std.specs.Option.{option_map};
ghost use Rattle.handover.specs.Signals.{ArePending, IsAmong, IsMask, IsMaskIn, IsMaskLine, blocked, stop_signals};

use std::alloc::{AllocError, Global};
use std::fs::{File, Files};
use std::io::{ErrorKind, Read};
use std::marker::Model;
use std::{io, str};

/// What Linux tells of the process that reads it (proc(5)).
const PLACE: &str = "/proc/self/status";

/// Linux writes some 1,500 bytes, and up to 11 for each of 65,536 groups.
const MAX_TEXT_LEN: u64 = 1_048_576;

/// The signals that the process blocks.
const BLOCKED: &[u8] = b"SigBlk:\t";

/// Those that are pending for it as a whole.
const SHARED_PENDING: &[u8] = b"ShdPnd:\t";

/// Those that are pending for its first thread.
const PENDING: &[u8] = b"SigPnd:\t";

/// SIGINT, which is signal 2, and SIGTERM, which is 15. Signal n is bit n - 1.
const STOP_SIGNALS: u64 = 0x4002;

/// Those of SIGINT and SIGTERM that a process blocks.
#[derive(Drop)]
pub struct StopSignals {
    mask: u64,
}

/// The mask of these signals.
impl Model for StopSignals {
    ghost use Rattle.std.specs.Prelude.{ℕ};

    ghost Value = { ℕ };

    ghost view = { λ signals. signals.mask };
}

impl StopSignals {
    /// Neither of them.
    pub fn none() -> StopSignals
        ensures { result ≡ 0 }
    {
        StopSignals { mask: 0 }
    }

    /// Those that this process blocks. It is none where the system does not tell.
    pub fn of_process<R: Files>(rt: &R, alloc: Global) -> Result<StopSignals, AllocError> {
        match status_text(rt, alloc) {
            Ok(text) => Ok(StopSignals::blocked_in(&text)),
            Err(error) if error.kind() == ErrorKind::OutOfMemory => Err(AllocError),
            Err(_) => Ok(StopSignals::none()),
        }
    }

    /// Those that a text of `/proc/self/status` says are blocked.
    pub fn blocked_in(text: &[u8]) -> StopSignals
        ensures some { (mask : ℕ) → IsMaskIn text.now blocked mask
            → result ≡ bit_and mask stop_signals }
        ensures none { ((mask : ℕ) → ¬ IsMaskIn text.now blocked mask) → result ≡ 0 }
    {
        match mask_in(text, BLOCKED) {
            Some(mask) => StopSignals {
                mask: mask & STOP_SIGNALS,
            },
            None => StopSignals::none(),
        }
    }

    pub fn is_none(&self) -> bool
        ensures { IsTrue result ↔ (self.now ≡ 0) }
    {
        self.mask == 0
    }

    /// Whether one of them is pending for this process, as far as the system tells.
    pub fn is_pending<R: Files>(&self, rt: &R, alloc: Global) -> bool {
        match status_text(rt, alloc) {
            Ok(text) => self.is_pending_in(&text),
            Err(_) => false,
        }
    }

    /// Whether a text of `/proc/self/status` says that one of them is pending.
    pub fn is_pending_in(&self, text: &[u8]) -> bool
        ensures { IsTrue result ↔ ArePending self.now text.now }
    {
        is_among(self.mask, text, SHARED_PENDING) || is_among(self.mask, text, PENDING)
    }
}

/// What the system tells of this process.
fn status_text<R: Files>(rt: &R, alloc: Global) -> io::Result<Vec<u8>> {
    let mut text = Vec::new(alloc);
    File::open(rt, PLACE)?
        .take(MAX_TEXT_LEN)
        .read_to_end(&mut text)?;
    Ok(text)
}

/// Whether the line of this name has one of these signals.
fn is_among(signals: u64, text: &[u8], name: &[u8]) -> bool
    ensures { IsTrue result ↔ IsAmong signals text.now name.now }
{
    match mask_in(text, name) {
        Some(mask) => mask & signals != 0,
        None => false,
    }
}

/// The mask that the first line of this name has in a text of `/proc/self/status`.
fn mask_in(text: &[u8], name: &[u8]) -> Option<u64>
    ensures some { IfSome result (λ mask. IsMaskIn text.now name.now mask) }
    ensures none { IfNone result ((mask : ℕ) → ¬ IsMaskIn text.now name.now mask) }
{
    mask_after(line_in(text, name)?, name)
}

fn line_in<'a>(text: &'a [u8], name: &[u8]) -> Option<&'a [u8]>
    ensures { option_map (λ line. line.now) result
        ≡ find (λ line. starts_with nat_eq line name.now) (slice_split (λ byte. byte == 10) text.now) }
{
    text.split(|byte| *byte == b'\n')
        .find(|line| line.starts_with(name))
}

fn mask_after(line: &[u8], name: &[u8]) -> Option<u64>
    ensures some { IfSome result (λ mask. IsMaskLine name.now line.now mask) }
    ensures none { IfNone result ((mask : ℕ) → ¬ IsMaskLine name.now line.now mask) }
{
    mask_of(line.strip_prefix(name)?)
}

/// The number that hexadecimal digits write.
fn mask_of(word: &[u8]) -> Option<u64>
    ensures some { IfSome result (λ mask. IsMask word.now mask) }
    ensures none { IfNone result ((mask : ℕ) → ¬ IsMask word.now mask) }
{
    if word.starts_with(b"+") {
        return None;
    }
    let Ok(text) = str::from_utf8(word) else {
        return None;
    };
    u64::from_str_radix(text, 16).ok()
}
