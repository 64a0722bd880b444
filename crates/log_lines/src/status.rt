ghost use Rattle.std.specs.Prelude.{◌≡◌};
ghost use Rattle.log_lines.specs.Level.{level_at};

use log::Level;
use std::fmt;

/// The status of a service, as lines have it.
#[derive(Clone, Copy)]
pub enum Status {
    Serving,
    NotServing,
    Unknown,
    /// The service is not registered.
    Absent,
}

impl Status {
    /// The level of a line that tells of a change to this status.
    pub(crate) fn level(self) -> Level
        ensures { result ≡ level_at self }
    {
        match self {
            Status::NotServing | Status::Absent => Level::Warn,
            Status::Serving | Status::Unknown => Level::Info,
        }
    }
}

impl fmt::Display for Status {
    fn fmt<W: fmt::Write>(&self, f: &mut fmt::Formatter<W>) -> fmt::Result {
        f.write_str(match self {
            Status::Serving => "serving",
            Status::NotServing => "not_serving",
            Status::Unknown => "unknown",
            Status::Absent => "absent",
        })
    }
}
