ghost use Rattle.std.specs.Prelude.{◌≡◌, if◌then◌else◌, is_some};
ghost use Rattle.desk_core.specs.declared.reply.Reply.TheVariants.{Done, Replaced, Missing};
ghost use Rattle.desk_core.specs.Reply.{reply_to_event};

use probe_core::{Event, Rule};

/// How a change was taken. Each has one entry of the journal, whatever its reply.
#[derive(Clone, Copy, Debug, PartialEq, Eq)]
pub enum Reply {
    Done,
    /// A probe took the place of another.
    Replaced,
    /// No probe is registered there.
    Missing,
    /// The event is not of the kind that the probe's rule follows.
    WrongKind,
    /// Nothing is heard while the server is shut down.
    Ignored,
}

/// The answer where a slot of this rule, or of none, is registered.
pub(crate) fn reply_to_register(rule: Option<Rule>) -> Reply
    ensures { result ≡ (if is_some rule then Replaced else Done) }
{
    if rule.is_some() {
        Reply::Replaced
    } else {
        Reply::Done
    }
}

/// The answer where a slot of this rule, or of none, is retired.
pub(crate) fn reply_to_retire(rule: Option<Rule>) -> Reply
    ensures { result ≡ (if is_some rule then Done else Missing) }
{
    if rule.is_some() {
        Reply::Done
    } else {
        Reply::Missing
    }
}

pub(crate) fn reply_to_event(rule: Option<Rule>, is_shut: bool, event: Event) -> Reply
    ensures { result ≡ reply_to_event rule is_shut event }
{
    match rule {
        None => Reply::Missing,
        Some(rule) if !rule.fits(event) => Reply::WrongKind,
        Some(_) if is_shut => Reply::Ignored,
        Some(_) => Reply::Done,
    }
}
