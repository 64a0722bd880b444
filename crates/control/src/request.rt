ghost use Rattle.std.specs.Prelude.{IfOk, ◌↔◌, IsTrue};
ghost use Rattle.script.specs.Reading.{IsReading};
ghost use Rattle.control.specs.Request.{IsOffered, IsOfferedText, IsRequest, IsWord};

use desk_core::Catalogue;
use script::{Expectation, Line, Question, read_expectation, read_line, read_question};
use std::alloc::{AllocError, Global};

/// What a line of a session asks for.
#[derive(Drop)]
pub enum Request {
    /// A change, a Check or the board, as a line of a script.
    Line(Line),
    /// How often a service has to be reported.
    Expect(Expectation),
    /// What somebody wants to know of the history.
    Ask(Question),
    /// The status of each name.
    List,
    /// How many entries, connections and calls there are and were.
    Stats,
    /// The end of the server.
    Stop,
}

/// What a text asks for, if it is a request.
#[tactic(auto, using(crate::proofs::RequestLemmas::no_request))]
pub(crate) fn read_request(
    alloc: Global,
    catalogue: &Catalogue,
    text: &str,
) -> Result<Option<Request>, AllocError>
    ensures { IfOk result (λ request. IsReading (IsRequest catalogue.now) text.now request) }
{
    if let Some(request) = read_word(text) {
        return Ok(Some(request));
    }
    if let Some(expectation) = read_expectation(alloc, text)? {
        return Ok(Some(Request::Expect(expectation)));
    }
    if let Some(question) = read_question(alloc, text)? {
        return Ok(Some(Request::Ask(question)));
    }
    match read_offered(alloc, catalogue, text)? {
        Some(line) => Ok(Some(Request::Line(line))),
        None => Ok(None),
    }
}

#[tactic(auto, using(crate::proofs::RequestLemmas::no_word))]
fn read_word(text: &str) -> Option<Request>
    ensures { IsReading IsWord text.now result }
{
    if text == "list" {
        Some(Request::List)
    } else if text == "stats" {
        Some(Request::Stats)
    } else if text == "stop" {
        Some(Request::Stop)
    } else {
        None
    }
}

#[tactic(auto, using(crate::proofs::RequestLemmas::no_line, crate::proofs::RequestLemmas::not_offered))]
fn read_offered(
    alloc: Global,
    catalogue: &Catalogue,
    text: &str,
) -> Result<Option<Line>, AllocError>
    ensures { IfOk result (λ line. IsReading (IsOfferedText catalogue.now) text.now line) }
{
    let Some(line) = read_line(alloc, catalogue, text)? else {
        return Ok(None);
    };
    if is_offered(&line) {
        Ok(Some(line))
    } else {
        Ok(None)
    }
}

/// Whether a session may have the line: it opens no watches.
fn is_offered(line: &Line) -> bool
    ensures { IsTrue result ↔ IsOffered line.now }
{
    !matches!(line, Line::Open(_) | Line::Step(_))
}
