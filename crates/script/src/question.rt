ghost use Rattle.std.specs.Prelude.{◌≡◌, [], ◌∷◌, codes, Some, IfOk};
ghost use Rattle.script.specs.Question.{IsQuestion, IsQuestionText};
ghost use Rattle.script.specs.Reading.{IsReading};
ghost use Rattle.script.specs.TextLines.{texts};
ghost use Rattle.script.specs.Word.{name_of};

use crate::name::read_name;
use crate::number::number_of;
use crate::words::words_of;
use desk_core::Name;
use std::alloc::{AllocError, Global};

/// What a line of a session asks about the history.
#[derive(Drop)]
pub enum Question {
    /// Why a service has its status.
    Why(Name),
    /// The same, with since when and when it was reported last.
    Status(Name),
    /// What the entry at a place of the journal is.
    Entry(u32),
}

/// The question that a text asks.
pub fn read_question(alloc: Global, text: &str) -> Result<Option<Question>, AllocError>
    ensures { IfOk result (λ question. IsReading IsQuestionText text.now question) }
{
    match words_of(alloc, text)? {
        Some(words) => question_of(alloc, &words),
        None => Ok(None),
    }
}

/// The question that words ask.
fn question_of(alloc: Global, words: &[&str]) -> Result<Option<Question>, AllocError>
    ensures { IfOk result (λ question. IsReading IsQuestion (texts words.now) question) }
{
    match words {
        ["why", name] => why_question(alloc, name),
        ["status", name] => status_question(alloc, name),
        ["entry", word] => Ok(entry_question(word)),
        _ => Ok(None),
    }
}

/// The question why the service of this name has its status.
fn why_question(alloc: Global, name: &str) -> Result<Option<Question>, AllocError>
    ensures { IfOk result (λ question. question ≡ Some (Question.Why (name_of name.now))) }
{
    Ok(Some(Question::Why(read_name(alloc, name)?)))
}

/// The question how the service of this name stands.
fn status_question(alloc: Global, name: &str) -> Result<Option<Question>, AllocError>
    ensures { IfOk result (λ question. question ≡ Some (Question.Status (name_of name.now))) }
{
    Ok(Some(Question::Status(read_name(alloc, name)?)))
}

/// The question for the entry of this place, if it is a number.
fn entry_question(word: &str) -> Option<Question>
    ensures { IsReading IsQuestion (codes "entry" ∷ word.now ∷ []) result }
{
    Some(Question::Entry(number_of(word)?))
}
