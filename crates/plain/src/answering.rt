ghost use Rattle.std.specs.Prelude.{◌≡◌, List, IfOk, option_and_then};
ghost use Rattle.desk_core.specs.declared.entry.Entry.{Entry};
ghost use Rattle.desk_core.specs.Board.{board_of};
ghost use Rattle.desk_core.specs.Status.{status_map};
ghost use Rattle.plain.specs.Answer.{answer_to, reading, refusal};
ghost use Rattle.plain.specs.Escapes.{name_of};
ghost use Rattle.plain.specs.Inquiry.{asked_of};
ghost use Rattle.plain.specs.Response.{response};
ghost use Rattle.plain.specs.Target.{resource_of};

use crate::escapes::slot_of;
use crate::figures::Figures;
use crate::inquiry::Inquiry;
use crate::metrics::metrics_text;
use crate::page::page_bytes;
use crate::response::{Kind, response};
use crate::services::services_text;
use crate::status_text::{call_only, not_found, read_only, status_response};
use crate::target::Target;
use crate::verb::Verb;
use desk_core::{Catalogue, board_status};
use health_wire::Serving;
use std::alloc::{AllocError, Global};

/// The whole text of the response, at the history of a board.
pub fn answer(
    alloc: Global,
    inquiry: &Inquiry<'_>,
    catalogue: &Catalogue,
    board: u64,
    figures: &Figures,
) -> Result<Vec<u8>, AllocError>
    ensures { (seen : List Entry) → board ≡ board_of seen → IfOk result (λ text. text.items
        ≡ answer_to (asked_of inquiry.now) catalogue.now seen figures.now) }
{
    match inquiry.verb {
        Verb::Get | Verb::Head => read(alloc, inquiry, catalogue, board, figures),
        Verb::Post | Verb::Other => refuse(alloc, inquiry),
    }
}

/// What a GET or a HEAD is answered.
fn read(
    alloc: Global,
    inquiry: &Inquiry<'_>,
    catalogue: &Catalogue,
    board: u64,
    figures: &Figures,
) -> Result<Vec<u8>, AllocError>
    ensures { (seen : List Entry) → board ≡ board_of seen → IfOk result (λ text. text.items
        ≡ response inquiry.now.verb
        (reading (resource_of inquiry.now.target) catalogue.now seen figures.now)) }
{
    let verb = inquiry.verb;
    match inquiry.target {
        Target::Status(escaped) => {
            status_response(alloc, verb, status_of(alloc, catalogue, board, escaped)?)
        }
        Target::Services => {
            let text = services_text(alloc, catalogue, board)?;
            response(alloc, verb, Kind::Json, text.as_slice())
        }
        Target::Metrics => {
            let text = metrics_text(alloc, catalogue, board, figures)?;
            response(alloc, verb, Kind::Metrics, text.as_slice())
        }
        Target::Page => response(alloc, verb, Kind::Page, page_bytes()),
        Target::Call => call_only(alloc, verb),
        Target::Nothing => not_found(alloc, verb),
    }
}

/// What any other method is answered.
fn refuse(alloc: Global, inquiry: &Inquiry<'_>) -> Result<Vec<u8>, AllocError>
    ensures { IfOk result (λ text. text.items
        ≡ response inquiry.now.verb (refusal (resource_of inquiry.now.target))) }
{
    match inquiry.target {
        Target::Call => call_only(alloc, inquiry.verb),
        Target::Nothing => not_found(alloc, inquiry.verb),
        _ => read_only(alloc, inquiry.verb),
    }
}

/// The status on a board of the service whose name stands escaped there.
fn status_of(
    alloc: Global,
    catalogue: &Catalogue,
    board: u64,
    escaped: &[u8],
) -> Result<Option<Serving>, AllocError>
    ensures { (seen : List Entry) → board ≡ board_of seen → IfOk result (λ status. status
        ≡ option_and_then (status_map catalogue.now seen) (name_of escaped.now)) }
{
    match slot_of(alloc, catalogue, escaped)? {
        Some(slot) => Ok(board_status(board, slot)),
        None => Ok(None),
    }
}
