//! What `tell` says on standard error, where an answer only says that something was wrong.

use std::fmt;

/// What was wrong with a line of a session, in the words that a script to run is told of it.
#[derive(Clone, Copy)]
pub enum Advice<'a> {
    NotText,
    /// Two spaces stand together, or one at an end.
    EmptyWord,
    UnknownLine,
    /// The word has one name after it.
    NeedsName(&'a str),
    StandsAlone(&'a str),
    NeedsRule,
    NeedsSeconds,
    NeedsPlace,
    /// The word tells what a checker found.
    IsFinding(&'a str),
    /// The word sets a status by hand.
    IsSetting(&'a str),
    BadRule,
}

impl fmt::Display for Advice<'_> {
    fn fmt<W: fmt::Write>(&self, f: &mut fmt::Formatter<W>) -> fmt::Result {
        let text = match *self {
            Advice::NeedsName(word) => return write!(f, "expected {word} NAME"),
            Advice::StandsAlone(word) => return write!(f, "expected {word} alone"),
            Advice::IsFinding(word) => {
                return write!(f, "{word} is for a service with a threshold");
            }
            Advice::IsSetting(word) => return write!(f, "{word} is for a manual service"),
            Advice::NotText => "a line is UTF-8",
            Advice::EmptyWord => "an empty word, expected one space between words",
            Advice::UnknownLine => "no such line, healthd help tell lists those that there are",
            Advice::NeedsRule => {
                "expected register NAME and then threshold F, threshold F R, threshold F R unknown, \
                    manual or depends and names of the catalogue"
            }
            Advice::NeedsSeconds => "expected expect NAME SECONDS, 86400 seconds at most",
            Advice::NeedsPlace => "expected entry N, a number from 0 to 4294967295",
            Advice::BadRule => {
                "a threshold has counts from 1 to 1000, and a service depends on services that \
                    stand further left in the catalogue"
            }
        };
        f.write_str(text)
    }
}

/// What is said of a line that was answered so, if there is more to say than the answer does.
pub fn advice_on<'a>(line: &'a [u8], answer: &[u8]) -> Option<Advice<'a>> {
    match answer {
        b"bad line" => Some(advice_on_bad(line)),
        b"wrong kind" => advice_on_wrong(first_word(str::from_utf8(line).ok()?)),
        b"refused bad rule" => Some(Advice::BadRule),
        _ => None,
    }
}

/// What is wrong with a bad line.
fn advice_on_bad(line: &[u8]) -> Advice<'_> {
    let Ok(text) = str::from_utf8(line) else {
        return Advice::NotText;
    };
    let text = text.strip_suffix('\r').unwrap_or(text);
    if text.split(' ').any(|word| word.is_empty()) {
        return Advice::EmptyWord;
    }
    match first_word(text) {
        word @ ("retire" | "pass" | "fail" | "up" | "down" | "check" | "why" | "status") => {
            Advice::NeedsName(word)
        }
        word @ ("shutdown" | "resume" | "list" | "board" | "stats" | "stop") => {
            Advice::StandsAlone(word)
        }
        "register" => Advice::NeedsRule,
        "expect" => Advice::NeedsSeconds,
        "entry" => Advice::NeedsPlace,
        _ => Advice::UnknownLine,
    }
}

/// What a line that begins with this word is for.
fn advice_on_wrong(word: &str) -> Option<Advice<'_>> {
    match word {
        "pass" | "fail" | "expect" => Some(Advice::IsFinding(word)),
        "up" | "down" => Some(Advice::IsSetting(word)),
        _ => None,
    }
}

fn first_word(text: &str) -> &str {
    match text.split_once(' ') {
        Some((word, _)) => word,
        None => text,
    }
}
