use crate::description::Description;
use crate::recollection::Recollection;
use crate::stats::Stats;
use desk_core::{Reason, Refusal, Reply};
use health_wire::Serving;
use script::{changed_text, checked_text};

/// What a line of a session comes to.
#[derive(Clone, Copy)]
pub enum Answer {
    Changed(Result<Reply, Refusal>),
    /// What came of an expectation. It has the text of a change.
    Expected(Result<Reply, Refusal>),
    Checked(Option<Serving>),
    /// The board.
    Board(u64),
    /// The board whose statuses a list of all names tells.
    Listed(u64),
    Told(Stats),
    /// Why a service has its status.
    Explained(Reason),
    /// How a service stands.
    Described(Description),
    /// What is known of an entry.
    Recalled(Recollection),
    /// The name that was asked about is not listed.
    NotFound,
    /// The server is to end.
    Stopping,
    /// The line is no request.
    BadLine,
    /// The line has too many bytes.
    TooLong,
    /// The place of the session does not take such a line.
    NotAllowed,
    /// A web browser sends such a line, and no session does.
    NotASession,
    /// Memory ran out, and nothing was changed.
    OutOfMemory,
    /// The line has no byte, and is not answered.
    Skipped,
}

impl Answer {
    ghost use Rattle.std.specs.Prelude.{◌≡◌, ◌≤◌, Some, IfSome, IfNone, None, length};
    ghost use Rattle.control.specs.Text.{ends_session, short_text};

    /// The text of an answer that has one of a few. All others are told where nothing was changed.
    pub(crate) fn short_text(&self) -> Option<&'static str>
        ensures value { IfSome result (λ text. short_text self.now ≡ Some text.now) }
        ensures none { IfNone result (short_text self.now ≡ None) }
        ensures short { IfSome result (λ text. length text.now ≤ 20) }
    {
        match self {
            Answer::Changed(result) | Answer::Expected(result) => Some(changed_text(*result)),
            Answer::Checked(status) => Some(checked_text(*status)),
            Answer::NotFound => Some("not found"),
            Answer::Stopping => Some("stopping"),
            Answer::BadLine => Some("bad line"),
            Answer::TooLong => Some("line too long"),
            Answer::NotAllowed => Some("not allowed"),
            Answer::NotASession => Some("not a session"),
            Answer::OutOfMemory => Some("refused no memory"),
            Answer::Board(_)
            | Answer::Listed(_)
            | Answer::Told(_)
            | Answer::Explained(_)
            | Answer::Described(_)
            | Answer::Recalled(_)
            | Answer::Skipped => None,
        }
    }

    /// Whether no line behind it is answered.
    pub(crate) fn ends_session(&self) -> bool
        ensures { result ≡ ends_session self.now }
    {
        matches!(
            self,
            Answer::Stopping | Answer::TooLong | Answer::NotASession
        )
    }
}
