use std::io::ErrorKind;

/// What an operator is to know, besides what the looks came to.
#[derive(Drop)]
pub enum Note {
    /// The server refused the reports of the target at this place, with this answer.
    Refused(usize, String),
    /// The place cannot be told any more, by this error.
    Lost(ErrorKind),
    /// It can be told again.
    Found,
}
