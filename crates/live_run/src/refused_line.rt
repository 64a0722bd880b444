ghost use Rattle.std.specs.Prelude.{◌≡◌, ◌↔◌, length, IfSome, IsNone};
ghost use Rattle.std.specs.List.{All};
ghost use Rattle.live_run.specs.RefusedLine.{IsFirstRefused, IsMade, is_made};

use desk_core::{Refusal, Reply};

/// A line of a script whose change was not made as it was asked for.
#[derive(Clone, Copy, Debug)]
pub struct RefusedLine {
    /// Its number in the script's text.
    pub number: u32,
    /// Its answer: a refusal, or a reply other than `Done` and `Replaced`.
    pub answer: Result<Reply, Refusal>,
}

/// The first line whose change was not made, of the numbers of a script's lines and what came of each.
pub fn first_refused(numbers: &[u32], results: &[Result<Reply, Refusal>]) -> Option<RefusedLine>
    requires each { length numbers.now ≡ length results.now }
    ensures line { IfSome result (λ line. IsFirstRefused numbers.now results.now line) }
    ensures none { IsNone result ↔ All IsMade results.now }
{
    let place = results.iter().position(|answer| !is_made(*answer))?;
    Some(RefusedLine {
        number: numbers[place],
        answer: results[place],
    })
}

fn is_made(answer: Result<Reply, Refusal>) -> bool
    ensures { result ≡ is_made answer }
{
    matches!(answer, Ok(Reply::Done | Reply::Replaced))
}
