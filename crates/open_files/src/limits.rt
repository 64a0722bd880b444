ghost use Rattle.std.specs.Prelude.{◌≡◌, ◌==◌, ◌<◌, ℕ, List, nat_eq, not, IfSome, IfNone, find, length, position};
ghost use Rattle.std.specs.Char.{is_ascii_digit};
ghost use Rattle.std.specs.List.{list_all, slice_split, starts_with};
ghost use Rattle.std.specs.Option.{option_map};
ghost use Rattle.open_files.specs.Bound.{most_of};
ghost use Rattle.open_files.specs.Limits.{IsLimit, IsNumber, IsFirstWord, IsOpenFilesIn, IsOpenFilesLine, name};
ghost use Rattle.open_files.specs.declared.limits.OpenFiles.{OpenFiles};

use std::alloc::Global;
use std::fs::{File, Files};
use std::io::{ErrorKind, Read};
use std::{io, str};

/// The limits of the process that reads them (proc(5)).
const PLACE: &str = "/proc/self/limits";

/// Linux writes some 1,300 bytes.
const MAX_TEXT_LEN: u64 = 65_536;

const NAME: &[u8] = b"Max open files ";

/// How many files a process may have open: the soft limit, which the system refuses to go over.
#[derive(Clone, Copy)]
pub enum OpenFiles {
    /// At most so many.
    AtMost(u64),
    Unlimited,
}

impl OpenFiles {
    /// The number of files. `u64::MAX` stands for no limit.
    pub fn count(self) -> u64
        ensures { result ≡ most_of self }
    {
        match self {
            OpenFiles::AtMost(count) => count,
            OpenFiles::Unlimited => u64::MAX,
        }
    }
}

/// The limit of this process. A system that does not say it gives `InvalidData`.
pub fn open_files<R: Files>(rt: &R, alloc: Global) -> io::Result<OpenFiles> {
    let mut text = Vec::new(alloc);
    File::open(rt, PLACE)?
        .take(MAX_TEXT_LEN)
        .read_to_end(&mut text)?;
    open_files_in(&text).ok_or_else(|| io::Error::from(ErrorKind::InvalidData))
}

/// The limit that a text of `/proc/self/limits` says.
pub fn open_files_in(text: &[u8]) -> Option<OpenFiles>
    ensures some { IfSome result (λ limit. IsOpenFilesIn text.now limit) }
    ensures none { IfNone result ((limit : OpenFiles) → ¬ IsOpenFilesIn text.now limit) }
{
    limit_in(line_in(text)?)
}

fn line_in(text: &[u8]) -> Option<&[u8]>
    ensures { option_map (λ line. line.now) result
        ≡ find (λ line. starts_with nat_eq line name) (slice_split (λ byte. byte == 10) text.now) }
{
    text.split(|byte| *byte == b'\n')
        .find(|line| line.starts_with(NAME))
}

fn limit_in(line: &[u8]) -> Option<OpenFiles>
    ensures some { IfSome result (λ limit. IsOpenFilesLine line.now limit) }
    ensures none { IfNone result ((limit : OpenFiles) → ¬ IsOpenFilesLine line.now limit) }
{
    let columns = line.strip_prefix(NAME)?;
    limit_of(first_word(columns)?)
}

fn first_word(text: &[u8]) -> Option<&[u8]>
    ensures some { IfSome result (λ word. IsFirstWord text.now word.now) }
    ensures none { IfNone result ((word : List ℕ) → ¬ IsFirstWord text.now word) }
{
    let text = &text[first_other(text)?..];
    Some(&text[..first_space(text)?])
}

/// Where the spaces at the front end.
fn first_other(text: &[u8]) -> Option<usize>
    ensures place { result ≡ position (λ byte. not (byte == 32)) text.now }
    ensures within { IfSome result (λ place. place < length text.now) }
{
    text.iter().position(|byte| *byte != b' ')
}

fn first_space(text: &[u8]) -> Option<usize>
    ensures place { result ≡ position (λ byte. byte == 32) text.now }
    ensures within { IfSome result (λ place. place < length text.now) }
{
    text.iter().position(|byte| *byte == b' ')
}

fn limit_of(word: &[u8]) -> Option<OpenFiles>
    ensures some { IfSome result (λ limit. IsLimit word.now limit) }
    ensures none { IfNone result ((limit : OpenFiles) → ¬ IsLimit word.now limit) }
{
    if word == b"unlimited".as_slice() {
        return Some(OpenFiles::Unlimited);
    }
    number_of(word).map(OpenFiles::AtMost)
}

fn number_of(word: &[u8]) -> Option<u64>
    ensures some { IfSome result (λ value. IsNumber word.now value) }
    ensures none { IfNone result ((value : ℕ) → ¬ IsNumber word.now value) }
{
    if !has_only_digits(word) {
        return None;
    }
    let Ok(text) = str::from_utf8(word) else {
        return None;
    };
    text.parse().ok()
}

fn has_only_digits(word: &[u8]) -> bool
    ensures { result ≡ list_all is_ascii_digit word.now }
{
    word.iter().all(|byte| byte.is_ascii_digit())
}
