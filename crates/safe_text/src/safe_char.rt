ghost use Rattle.std.specs.Prelude.{◌≡◌};
ghost use Rattle.safe_text.specs.Safe.{is_unsafe};

/// Whether a terminal does something else with a character than to show it: with a control character, and with one that turns the text
/// after it around (Unicode's Bidi_Control).
pub(crate) fn is_unsafe(c: char) -> bool
    ensures { result ≡ is_unsafe c }
{
    c.is_control()
        || matches!(
            c,
            '\u{61c}' | '\u{200e}' | '\u{200f}' | '\u{202a}'..='\u{202e}' | '\u{2066}'..='\u{2069}'
        )
}
