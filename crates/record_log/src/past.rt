//! All that a file was since it was opened, of which clauses speak and no memory holds anything.
ghost use Rattle.std.specs.Prelude.{◌≡◌, List, [], ◌∷◌};
ghost use Rattle.std.specs.Borrow.{ftrue};
ghost use Rattle.record_log.specs.Crashes.{State};
ghost use Rattle.record_log.specs.Noted.{after};

use std::marker::{Model, PhantomData};

#[derive(Drop)]
pub struct Past {
    marker: PhantomData<u8>,
    pub ghost states: { List State },
}

impl Model for Past {
    ghost also_owns = { λ _. ftrue };
}

// It owns nothing.
unsafe impl Send for Past {}

impl Past {
    /// Of an empty file.
    pub(crate) fn new() -> Past
        ensures { result.states ≡ [] }
    {
        Past {
            marker: PhantomData,
        }
    }

    /// Of a file with these bytes, all of them on the disk.
    pub(crate) fn of(bytes: &[u8]) -> Past
        ensures { result.states ≡ after [] [] (after (0 ∷ []) bytes.now []) }
    {
        let mut past = Past::new();
        past.note(&[0], bytes);
        past.note(&[], &[]);
        past
    }

    /// Notes a write of these bytes at the place that is given, or a sync where none is.
    pub(crate) fn note(&mut self, _place: &[u64], _bytes: &[u8])
        ensures { self.new.states ≡ after _place.now _bytes.now self.old.states }
    {}
}
