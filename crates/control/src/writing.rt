//! The lines of answers.

ghost use Rattle.std.specs.Prelude.{◌≡◌, ◌≢◌, None, ◌+◌, ◌≤◌, ◌++◌, codes, length, vec_len, vec_capacity, string_bytes, IfOk, IsOk, OnOk, OnErr, IsSome};
ghost use Rattle.control.specs.Text.{answer_text, long_text, short_text};

use crate::answer::Answer;
use crate::description_text::description_text;
use crate::entry_text::entry_text;
use crate::reasons::reason_text;
use crate::words::list_text;
use desk_core::Catalogue;
use std::alloc::{AllocError, Global};

/// Writes the line of an answer, or nothing. It does not fail for a short one where there is room for 32 bytes.
pub(crate) fn write_answer(
    alloc: Global,
    catalogue: &Catalogue,
    output: &mut Vec<u8>,
    answer: &Answer,
) -> Result<(), AllocError>
    ensures ok { OnOk result (output.new.items ≡ output.old.items ++ answer_text catalogue.now answer.now) }
    ensures err { OnErr result (output.new.items ≡ output.old.items) }
    ensures capacity { vec_capacity output.old ≤ vec_capacity output.new }
    ensures long { OnErr result (vec_len output.old + 32 ≤ vec_capacity output.old → (short_text answer.now ≡ None) × (answer.now ≢ Answer.Skipped)) }
    ensures short { IsSome (short_text answer.now) → vec_len output.old + 32 ≤ vec_capacity output.old → IsOk result }
{
    if let Answer::Skipped = answer {
        return Ok(());
    }
    match answer.short_text() {
        Some(text) => write_line(output, text),
        None => {
            let text = long_text(alloc, catalogue, answer)?;
            write_line(output, &text)
        }
    }
}

/// The text of an answer that has none of a few.
fn long_text(alloc: Global, catalogue: &Catalogue, answer: &Answer) -> Result<String, AllocError>
    ensures { IfOk result (λ text. string_bytes text ≡ long_text catalogue.now answer.now) }
{
    match answer {
        Answer::Board(word) => format!(in alloc; "{word}"),
        Answer::Listed(board) => list_text(alloc, catalogue, *board),
        Answer::Told(stats) => format!(in alloc; "{stats}"),
        Answer::Explained(reason) => reason_text(alloc, catalogue, *reason),
        Answer::Described(description) => description_text(alloc, catalogue, description),
        Answer::Recalled(recollection) => entry_text(alloc, catalogue, recollection),
        _ => Ok(String::new(alloc)),
    }
}

/// Writes a text and LF, or nothing.
fn write_line(output: &mut Vec<u8>, text: &str) -> Result<(), AllocError>
    ensures ok { OnOk result (output.new.items ≡ output.old.items ++ (text.now ++ codes "\n")) }
    ensures err { OnErr result (output.new.items ≡ output.old.items) }
    ensures capacity { vec_capacity output.old ≤ vec_capacity output.new }
    ensures room { vec_len output.old + (length text.now + 1) ≤ vec_capacity output.old → IsOk result }
{
    output.reserve(text.len() + 1)?;
    output.extend_from_slice(text.as_bytes()).unwrap();
    output.push(b'\n').unwrap();
    Ok(())
}
