//! A file that failed is opened anew once a second at most: that reads all of it, while every other change waits.

ghost use Rattle.std.specs.Prelude.{◌≡◌, ◌↔◌, false, true, None, Some};
ghost use Rattle.journal_store.specs.Retry.{IsRecent};

/// How long a try is recent, in microseconds.
const RECENT: u64 = 1_000_000;

/// When it was tried last to open a file anew, in microseconds since 1970.
#[derive(Clone, Copy)]
pub(crate) struct Retry {
    pub tried: Option<u64>,
}

impl Retry {
    pub(crate) fn new() -> Retry
        ensures { result.tried ≡ None }
    {
        Retry { tried: None }
    }

    /// Whether it may be tried at this time, which is then that of the last try.
    pub(crate) fn is_due(&mut self, micros: u64) -> bool
        ensures waits { (result ≡ false) ↔ IsRecent self.old.tried micros }
        ensures tried { result ≡ true → self.new.tried ≡ Some micros }
        ensures same { result ≡ false → self.new ≡ self.old }
    {
        if let Some(last) = self.tried
            && last.abs_diff(micros) < RECENT
        {
            return false;
        }
        self.tried = Some(micros);
        true
    }
}
