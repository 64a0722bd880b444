use crate::refusal::Refusal;
use crate::reply::Reply;
use probe_core::Probe;

/// A change that was made.
#[derive(Drop)]
pub struct Made<P: Probe> {
    pub reply: Reply,
    /// The probe that it took out.
    pub old: Option<P>,
    /// Whether it changed what is shown of a service.
    pub shows: bool,
    /// The place of its entry in the journal.
    pub at: u32,
}

/// What came of a change that a registrar was asked for.
#[derive(Clone, Copy)]
pub struct Effect {
    pub result: Result<Reply, Refusal>,
    /// Whether it changed what is shown of a service.
    pub shows: bool,
    /// The place of its entry in the journal, if it was made.
    pub at: Option<u32>,
}

impl<P: Probe> Made<P> {
    ghost use Rattle.std.specs.Prelude.{◌≡◌, Ok, Some};

    /// The same without the probe, which is dropped.
    pub fn effect(self) -> Effect
        ensures { result
            ≡ record { result = Ok self.reply; shows = self.shows; at = Some self.at } }
    {
        Effect {
            result: Ok(self.reply),
            shows: self.shows,
            at: Some(self.at),
        }
    }
}

impl Effect {
    ghost use Rattle.std.specs.Prelude.{◌≡◌};
    ghost use Rattle.desk_core.specs.Refusal.{refused_effect};

    /// A change that was refused.
    pub fn of_refusal(refusal: Refusal) -> Effect
        ensures { result ≡ refused_effect refusal }
    {
        Effect {
            result: Err(refusal),
            shows: false,
            at: None,
        }
    }
}
