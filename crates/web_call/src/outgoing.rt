ghost use Rattle.std.specs.Prelude.{◌≤◌, length};
ghost use Rattle.web_call.specs.Text.{text_bytes};

mod steps;

use crate::text::Text;

/// What goes out: a text, how many of its bytes were sent, and how many frames were whole before it.
#[derive(Drop)]
pub(crate) struct Outgoing {
    text: Text,
    gone: usize,
    earlier: u32,
    ghost within: { gone ≤ length (text_bytes text) },
}
