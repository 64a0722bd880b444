ghost use Rattle.std.specs.Prelude.{◌≡◌, ◌≤◌, ◌++◌, [], ℕ, List, length, take, drop};
ghost use Rattle.web_call.specs.Outgoing.{GoesOut, frames_out, left_of};
ghost use Rattle.web_call.specs.Pieces.{Piece};
ghost use Rattle.web_call.specs.Text.{text_bytes, IsTextOf};

use super::Outgoing;
use crate::text::Text;

impl Outgoing {
    /// A first text.
    pub(crate) fn new(text: Text) -> Outgoing
        ensures text { result.text ≡ text }
        ensures goes { (part : List Piece) → IsTextOf text part → GoesOut result [] part [] }
    {
        Outgoing {
            text,
            gone: 0,
            earlier: 0,
        }
    }

    /// What is left to send.
    pub(crate) fn left(&self) -> &[u8]
        ensures { result.now ≡ left_of self.now }
    {
        &self.text.bytes()[self.gone..]
    }

    /// So many bytes of it were sent.
    pub(crate) fn advance(&mut self, count: usize)
        requires { count ≤ length (left_of self.old) }
        ensures text { self.new.text ≡ self.old.text }
        ensures left { left_of self.new ≡ drop count (left_of self.old) }
        ensures goes { (done part : List Piece) (sent : List ℕ) → GoesOut self.old done part sent
            → GoesOut self.new done part (sent ++ take count (left_of self.old)) }
    {
        self.gone = self.text.bytes().len() - (self.left().len() - count);
    }

    /// How many frames went out whole; the count stays at its greatest number once it has reached it.
    pub(crate) fn frames(&self) -> u32
        ensures { result ≡ frames_out self.now }
    {
        self.earlier.saturating_add(self.text.frames_by(self.gone))
    }

    /// Goes on with this text, where nothing is left of the one before.
    pub(crate) fn follow(&mut self, text: Text)
        requires { left_of self.old ≡ [] }
        ensures text { self.new.text ≡ text }
        ensures left { left_of self.new ≡ text_bytes text }
        ensures goes { (done part next : List Piece) (sent : List ℕ)
            → GoesOut self.old done part sent → IsTextOf text next
            → GoesOut self.new (done ++ part) next sent }
    {
        *self = Outgoing {
            text,
            gone: 0,
            earlier: self.frames(),
        };
    }
}
