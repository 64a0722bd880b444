ghost use Rattle.std.specs.Prelude.{◌≡◌, ◌↔◌, IsTrue};
ghost use Rattle.control.specs.Rights.{IsAllowed, IsReport, unknown_line};

use crate::answer::Answer;
use crate::request::Request;
use desk_core::Order;
use script::Line;

/// What the sessions of a place may ask for.
#[derive(Clone, Copy)]
pub enum Rights {
    /// Whatever a session may.
    All,
    /// Findings may be reported, and statuses and numbers asked for; nothing else may be changed.
    Reports,
}

impl Rights {
    /// Whether the request may be made.
    pub fn allow(self, request: &Request) -> bool
        ensures { IsTrue result ↔ IsAllowed self request.now }
    {
        match self {
            Rights::All => true,
            Rights::Reports => match request {
                Request::Line(line) => is_report(line),
                Request::Ask(_) | Request::List | Request::Stats => true,
                Request::Expect(_) => false,
                Request::Stop => false,
            },
        }
    }

    /// What a line is answered that is no request.
    pub(crate) fn unknown_line(self) -> Answer
        ensures { result ≡ unknown_line self }
    {
        match self {
            Rights::All => Answer::BadLine,
            Rights::Reports => Answer::NotAllowed,
        }
    }
}

/// Whether the line reports a finding, or asks without changing anything.
fn is_report(line: &Line) -> bool
    ensures { IsTrue result ↔ IsReport line.now }
{
    matches!(
        line,
        Line::Order(Order::Observe(_, _)) | Line::Check(_) | Line::Board
    )
}
