use crate::words::{first_word, known, read_number};
use safe_text::SafeJson;
use serde::Serialize;
use std::alloc::{AllocError, Global};

/// An entry of the journal, in the words of an answer.
#[derive(Clone, Copy, Serialize)]
struct Entry<'a> {
    entry: Option<u32>,
    time: Option<&'a str>,
    who: Option<&'a str>,
    call: &'a str,
    reply: &'a str,
}

/// An entry as an object of JSON on one line, without LF, by the answer to the line `entry N`, or by a line of a journal's file, which may
/// have `-` in place of the number. There is none where the answer has another form, as `forgotten` and `none yet` have.
pub fn entry_json(alloc: Global, answer: &str) -> Result<Option<String>, AllocError> {
    let Some(entry) = read_entry(answer) else {
        return Ok(None);
    };
    // Writing fails only without memory, since an entry does not nest deep.
    let text = serde_json::to_string(alloc, &entry).map_err(|_| AllocError)?;
    Ok(Some(SafeJson(&text).to_string(alloc)?))
}

fn read_entry(answer: &str) -> Option<Entry<'_>> {
    let (place, rest) = first_word(answer)?;
    let (time, rest) = first_word(rest)?;
    let (who, rest) = read_who(rest)?;
    let (call, reply) = rest.rsplit_once(": ")?;
    Some(Entry {
        entry: read_place(place)?,
        time: known(time),
        who: known(who),
        call,
        reply,
    })
}

/// The place of an entry, or that it has none.
fn read_place(word: &str) -> Option<Option<u32>> {
    match known(word) {
        Some(number) => Some(Some(read_number(number)?)),
        None => Some(None),
    }
}

/// Who asked for an entry, as `session 3`, and what stands behind.
fn read_who(text: &str) -> Option<(&str, &str)> {
    let (who, rest) = first_word(text)?;
    match who {
        "-" | "setup" | "expiry" => Some((who, rest)),
        "session" => read_session(text, rest),
        _ => None,
    }
}

fn read_session<'a>(text: &'a str, numbered: &'a str) -> Option<(&'a str, &'a str)> {
    let (number, rest) = first_word(numbered)?;
    read_number(number)?;
    let who = text.get(.."session ".len().saturating_add(number.len()))?;
    Some((who, rest))
}
