use std::fmt;

/// Who asked for a change.
#[derive(Clone, Copy, PartialEq, Eq)]
pub enum Who {
    /// What the server begins with.
    Setup,
    /// The session of this number.
    Session(u32),
    /// The server itself, since a service was not heard from.
    Expiry,
    /// It is no longer known.
    Forgotten,
}

impl fmt::Display for Who {
    fn fmt<W: fmt::Write>(&self, f: &mut fmt::Formatter<W>) -> fmt::Result {
        match self {
            Who::Setup => f.write_str("setup"),
            Who::Session(number) => write!(f, "session {number}"),
            Who::Expiry => f.write_str("expiry"),
            Who::Forgotten => f.write_str("-"),
        }
    }
}
