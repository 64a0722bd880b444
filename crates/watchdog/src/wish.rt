ghost use Rattle.std.specs.Prelude.{◌≡◌};
ghost use Rattle.watchdog.specs.Wish.{wish_in, word_of};

/// The greatest number of seconds that a service may be silent.
pub const MAX_SECONDS: u32 = 86_400;

/// That a service is to be heard at least every so many seconds from a place of the journal on, or with 0 no more.
#[derive(Clone, Copy)]
pub struct Wish {
    pub seconds: u32,
    /// How many entries stand before it.
    pub behind: u32,
}

impl Wish {
    ghost use Rattle.std.specs.Prelude.{◌≡◌, ◌≤◌};
    ghost use Rattle.watchdog.specs.Wish.{wish_in, word_of};

    /// The wish as a word other than 0.
    pub(crate) fn word(self) -> u64
        requires { self.seconds ≤ 86400 }
        ensures { result ≡ word_of self }
    {
        (u64::from(self.seconds) + 1) * 0x1_0000_0000 + u64::from(self.behind)
    }

    /// The wish of a word.
    pub(crate) fn of_word(word: u64) -> Option<Wish>
        ensures { result ≡ wish_in word }
    {
        if word == 0 {
            return None;
        }
        Some(Wish {
            seconds: ((word >> 32) as u32).saturating_sub(1),
            behind: (word % 0x1_0000_0000) as u32,
        })
    }
}
