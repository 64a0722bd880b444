ghost use Rattle.std.specs.Prelude.{IfSome, IfOk, string_bytes};
ghost use Rattle.readout.specs.Told.{IsNameOf, Tells, told_by};

use crate::moment::{Moment, owned_moment};
use crate::standing::read_answer;
use crate::status::Status;
use crate::words::{known, owned};
use serde::Serialize;
use std::alloc::{AllocError, Global};

/// How one service stands.
#[derive(Drop, Serialize)]
pub struct Row {
    /// Its name, empty for the whole server.
    pub name: String,
    pub status: Status,
    /// The entry from which on it has that status.
    pub since: Option<Moment>,
    /// The entry of its newest report.
    pub reported: Option<Moment>,
    /// At least every how many seconds a report is expected.
    #[serde(rename = "expected_seconds")]
    pub expected: Option<u32>,
    /// Why it has that status, where there is more to say.
    pub why: Option<String>,
}

/// The row of the service of this name, which is `-` for the empty one, by the answer to the line `status NAME`. There is none where
/// the answer has another form, as `not found` has.
pub fn read_standing(alloc: Global, name: &str, answer: &str) -> Result<Option<Row>, AllocError>
    ensures name { IfOk result
        (λ found. IfSome found (λ row. IsNameOf name.now (string_bytes row.name))) }
    ensures told { IfOk result
        (λ found. IfSome found (λ row. Tells answer.now (told_by row))) }
{
    let Some(standing) = read_answer(answer) else {
        return Ok(None);
    };
    Ok(Some(Row {
        name: String::from_str(alloc, known(name).unwrap_or(""))?,
        status: standing.reason.status,
        since: owned_moment(alloc, standing.since)?,
        reported: owned_moment(alloc, standing.reported)?,
        expected: standing.expected,
        why: owned(alloc, standing.reason.why)?,
    }))
}
