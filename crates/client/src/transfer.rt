//! A whole text through a writer. An error of any kind ends it at once, `Interrupted` too.

ghost use Rattle.std.specs.Prelude.{◌≡◌, ℕ, true, take, length, OnOk, OnErr, IfErr};
ghost use Rattle.std.specs.Io.KnownBytes.{Appends};
ghost use Rattle.client.specs.Lent.{lent_inner, lent_failed, lent_name};

use crate::ask_fault::AskFault;
use crate::lent::Lent;
use std::io::Write;

/// Writes the whole text and flushes it.
pub(crate) fn send<W: Write>(writer: &mut Lent<'_, W>, text: &[u8]) -> Result<(), AskFault>
    ensures reference { lent_name writer.new ≡ lent_name writer.old }
    ensures ok { OnOk result (Appends (W.contents (lent_inner writer.old))
        (W.contents (lent_inner writer.new)) text.now) }
    ensures front { OnErr result ((taken : ℕ)
        × Appends (W.contents (lent_inner writer.old)) (W.contents (lent_inner writer.new))
        (take taken text.now)) }
    ensures err { IfErr result (λ fault. fault ≡ AskFault.Write) }
    ensures kept { OnOk result (lent_failed writer.new ≡ lent_failed writer.old) }
    ensures failed { OnErr result (lent_failed writer.new ≡ true) }
{
    let mut taken = 0;
    while taken < text.len() {
        let Ok(count) = writer.write(&text[taken..]) else {
            return Err(AskFault::Write);
        };
        if count == 0 {
            return Err(AskFault::Write);
        }
        taken += count;
    }
    match writer.flush() {
        Ok(()) => Ok(()),
        Err(_) => Err(AskFault::Write),
    }
}
