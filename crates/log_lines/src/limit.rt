use std::fmt;

/// A bound of the server that is reached, or nearly.
#[derive(Clone, Copy)]
pub enum Limit {
    /// All of so many connections are taken.
    Connections(u32),
    /// All of so many watches are taken.
    Watches(u32),
    /// All of so many sessions are taken.
    Sessions(u32),
    /// Nine tenths of so many entries are made.
    MostEntries(u32),
    /// All of so many entries are made.
    AllEntries(u32),
}

impl fmt::Display for Limit {
    fn fmt<W: fmt::Write>(&self, f: &mut fmt::Formatter<W>) -> fmt::Result {
        match self {
            Limit::Connections(count) => write!(f, "all {count} connections are taken"),
            Limit::Watches(count) => write!(f, "all {count} watches are taken"),
            Limit::Sessions(count) => write!(f, "all {count} sessions are taken"),
            Limit::MostEntries(count) => write!(f, "nine tenths of {count} entries are made"),
            Limit::AllEntries(count) => write!(f, "all {count} entries are made"),
        }
    }
}
