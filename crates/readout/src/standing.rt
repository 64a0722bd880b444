//! How one service stands, in the words of an answer.

ghost use Rattle.std.specs.Prelude.{◌≡◌, IfSome, option_map};
ghost use Rattle.readout.specs.Told.{IsSeconds, Tells, reason_text, told_in};

use crate::moment::{Mention, read_mention};
use crate::status::Status;
use crate::words::{behind, first_word, known, read_number};

#[derive(Clone, Copy)]
pub(crate) struct Standing<'a> {
    pub(crate) since: Option<Mention<'a>>,
    pub(crate) reported: Option<Mention<'a>>,
    pub(crate) expected: Option<u32>,
    pub(crate) reason: Reason<'a>,
}

/// A status, and why a service has it.
#[derive(Clone, Copy)]
pub(crate) struct Reason<'a> {
    pub(crate) status: Status,
    pub(crate) why: Option<&'a str>,
}

/// How a service stands, by the answer to the line `status NAME`.
pub(crate) fn read_answer(answer: &str) -> Option<Standing<'_>>
    ensures { IfSome result (λ standing. Tells answer.now (told_in standing)) }
{
    let (since, rest) = read_mention(behind(answer, "since ")?)?;
    let (reported, rest) = read_mention(behind(rest, "reported ")?)?;
    let (seconds, reason) = first_word(behind(rest, "expected ")?)?;
    Some(Standing {
        since,
        reported,
        expected: read_seconds(seconds)?,
        reason: read_reason(reason)?,
    })
}

fn read_seconds(word: &str) -> Option<Option<u32>>
    ensures { IfSome result (IsSeconds word.now) }
{
    match known(word) {
        Some(word) => Some(Some(read_number(word)?)),
        None => Some(None),
    }
}

/// A status up to `: `, and behind that why a service has it.
fn read_reason(text: &str) -> Option<Reason<'_>>
    ensures { IfSome result (λ reason. text.now ≡ reason_text reason.status
        (option_map (λ why. why.now) reason.why)) }
{
    let (word, why) = match text.split_once(": ") {
        Some((word, why)) => (word, Some(why)),
        None => (text, None),
    };
    let status = Status::read(word)?;
    Some(Reason { status, why })
}
