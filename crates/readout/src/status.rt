ghost use Rattle.std.specs.Prelude.{◌≡◌, ◌≢◌, IfSome, IfNone};
ghost use Rattle.readout.specs.declared.status.Status.{Status};
ghost use Rattle.readout.specs.Told.{word_of};

use serde::Serialize;

/// The status of a service.
#[derive(Clone, Copy, Serialize)]
#[serde(rename_all = "snake_case")]
pub enum Status {
    Serving,
    NotServing,
    Unknown,
    /// It was never registered, or is no longer.
    Absent,
}

impl Status {
    /// The word that answers have for it.
    pub fn word(self) -> &'static str
        ensures { result.now ≡ word_of self }
    {
        match self {
            Status::Serving => "serving",
            Status::NotServing => "not_serving",
            Status::Unknown => "unknown",
            Status::Absent => "absent",
        }
    }

    /// The status that has this word.
    pub fn read(word: &str) -> Option<Status>
        ensures read { IfSome result (λ status. word.now ≡ word_of status) }
        ensures refused { IfNone result ((status : Status) → word.now ≢ word_of status) }
    {
        match word {
            "serving" => Some(Status::Serving),
            "not_serving" => Some(Status::NotServing),
            "unknown" => Some(Status::Unknown),
            "absent" => Some(Status::Absent),
            _ => None,
        }
    }
}
