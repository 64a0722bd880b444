ghost use Rattle.std.specs.Prelude.{ℕ, IfSome, IfNone};
ghost use Rattle.handover.specs.Numbers.{IsNumber};

/// The number that a text of the environment writes.
pub(crate) fn number_in(text: &str) -> Option<u32>
    ensures some { IfSome result (λ value. IsNumber text.now value) }
    ensures none { IfNone result ((value : ℕ) → ¬ IsNumber text.now value) }
{
    let bytes = text.as_bytes();
    if bytes.starts_with(b"0") || bytes.starts_with(b"+") {
        return None;
    }
    text.parse().ok()
}
