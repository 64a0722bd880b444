ghost use Rattle.std.specs.Prelude.{◌≡◌, true};
ghost use Rattle.log_lines.specs.Second.{is_over};

/// How long a second lasts, in milliseconds.
const SECOND_MILLIS: u64 = 1_000;

/// The most lines that are written in a second.
const MAX_LINES: u32 = 100;

/// The second in which lines are written now, and what was left out.
#[derive(Clone, Copy)]
pub(crate) struct Second {
    /// The reading at its first line, if it has one.
    pub(crate) begun: Option<u64>,
    /// The lines that were written in it.
    pub(crate) taken: u32,
    /// The lines that were left out in it.
    pub(crate) left: u64,
    /// The lines that were left out in seconds that are over, and of which nobody was told.
    pub(crate) over: u64,
}

impl Second {
    ghost use Rattle.log_lines.specs.Second.{after_ask, after_look, has_room, told_by, turned, unbegun, with_line};

    /// Before the first line.
    pub(crate) fn new() -> Second
        ensures { result ≡ unbegun }
    {
        Second {
            begun: None,
            taken: 0,
            left: 0,
            over: 0,
        }
    }

    /// The second of this reading: the same one, or one that has no line yet.
    pub(crate) fn turned(self, now_millis: u64) -> Second
        ensures { result ≡ turned now_millis self }
    {
        if !is_over(self.begun, now_millis) {
            return self;
        }
        Second {
            begun: None,
            taken: 0,
            left: 0,
            over: self.over.saturating_add(self.left),
        }
    }

    pub(crate) fn has_room(self) -> bool
        ensures { result ≡ has_room self }
    {
        self.taken < MAX_LINES
    }

    /// With one more line.
    fn with_line(self, now_millis: u64) -> Second
        requires { has_room self ≡ true }
        ensures { result ≡ with_line now_millis self }
    {
        Second {
            begun: Some(self.begun.unwrap_or(now_millis)),
            taken: self.taken + 1,
            ..self
        }
    }

    /// After somebody asked whether a line may be written.
    pub(crate) fn asked(self, now_millis: u64) -> Second
        ensures { result ≡ after_ask now_millis self }
    {
        if self.has_room() {
            return self.with_line(now_millis);
        }
        Second {
            left: self.left.saturating_add(1),
            ..self
        }
    }

    /// How many lines somebody who asks is told to have been left out.
    pub(crate) fn told(self) -> Option<u64>
        ensures { result ≡ told_by self }
    {
        if self.over > 0 && self.has_room() {
            Some(self.over)
        } else {
            None
        }
    }

    /// After somebody asked how many lines were left out.
    pub(crate) fn looked(self, now_millis: u64) -> Second
        ensures { result ≡ after_look now_millis self }
    {
        if self.told().is_none() {
            return self;
        }
        Second {
            over: 0,
            ..self.with_line(now_millis)
        }
    }
}

/// Whether the second that began at this reading is over, or none has begun.
fn is_over(begun: Option<u64>, now_millis: u64) -> bool
    ensures { result ≡ is_over begun now_millis }
{
    match begun {
        Some(begun) => now_millis.saturating_sub(begun) >= SECOND_MILLIS,
        None => true,
    }
}
