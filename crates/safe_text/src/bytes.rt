ghost use Rattle.std.specs.Prelude.{◌≡◌, IfOk, IsUtf8, string_bytes};
ghost use Rattle.safe_text.specs.Safe.{safe_text};

use crate::safe_text::SafeText;
use std::alloc::{AllocError, Global};
use std::fmt;

/// Bytes that need not be text, as they can be printed: what is text among them as a `SafeText`, and each other byte by its number, as
/// `\xff`.
pub fn printable(alloc: Global, bytes: &[u8]) -> Result<String, AllocError>
    ensures { IsUtf8 bytes.now → IfOk result (λ text. string_bytes text ≡ safe_text bytes.now) }
{
    match str::from_utf8(bytes) {
        Ok(text) => SafeText(text).to_string(alloc),
        Err(_) => SafeBytes(bytes).to_string(alloc),
    }
}

/// The same of bytes for which there may be no memory.
#[derive(Clone, Copy)]
pub struct SafeBytes<'a>(pub &'a [u8]);

impl fmt::Display for SafeBytes<'_> {
    fn fmt<W: fmt::Write>(&self, f: &mut fmt::Formatter<W>) -> fmt::Result {
        for chunk in self.0.utf8_chunks() {
            let (text, others) = (SafeText(chunk.valid()), chunk.invalid().escape_ascii());
            write!(f, "{text}{others}")?;
        }
        Ok(())
    }
}
