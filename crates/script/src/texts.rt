//! The words that a run of a script prints.
ghost use Rattle.std.specs.Prelude.{◌≡◌};
ghost use Rattle.script.specs.RunText.{changed_text, reply_text, refused_text, serving_text, checked_text, stepped_text};

use desk_core::{Refusal, Reply};
use health_wire::Serving;

/// What a line that asks for a change comes to.
pub fn changed_text(changed: Result<Reply, Refusal>) -> &'static str
    ensures { result.now ≡ changed_text changed }
{
    match changed {
        Ok(reply) => reply_text(reply),
        Err(refusal) => refused_text(refusal),
    }
}

fn reply_text(reply: Reply) -> &'static str
    ensures { result.now ≡ reply_text reply }
{
    match reply {
        Reply::Done => "done",
        Reply::Replaced => "replaced",
        Reply::Missing => "missing",
        Reply::WrongKind => "wrong kind",
        Reply::Ignored => "ignored",
    }
}

fn refused_text(refusal: Refusal) -> &'static str
    ensures { result.now ≡ refused_text refusal }
{
    match refusal {
        Refusal::BadRule => "refused bad rule",
        Refusal::Full => "refused full",
        Refusal::NoMemory => "refused no memory",
        Refusal::NotListed => "refused not listed",
        Refusal::NotStored => "refused not stored",
    }
}

pub(crate) fn serving_text(status: Serving) -> &'static str
    ensures { result.now ≡ serving_text status }
{
    match status {
        Serving::Unknown => "unknown",
        Serving::Serving => "serving",
        Serving::NotServing => "not serving",
        Serving::ServiceUnknown => "service unknown",
    }
}

/// What a Check prints. A service that is not there has no status.
pub fn checked_text(status: Option<Serving>) -> &'static str
    ensures { result.now ≡ checked_text status }
{
    match status {
        None => "not found",
        Some(status) => serving_text(status),
    }
}

/// What a step of a watch prints, where nothing changed too.
pub(crate) fn stepped_text(status: Option<Serving>) -> &'static str
    ensures { result.now ≡ stepped_text status }
{
    match status {
        None => "none",
        Some(status) => serving_text(status),
    }
}
