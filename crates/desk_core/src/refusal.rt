use std::error::Error;
use std::fmt;

/// Why a change was not taken. It leaves no entry, and changes nothing.
#[derive(Clone, Copy, Debug, PartialEq, Eq)]
pub enum Refusal {
    /// A number of a threshold is outside 1 to 1,000, or a mask has the service's own slot or a later one.
    BadRule = 1,
    /// The journal has as many entries as it may have.
    Full = 2,
    /// Memory ran out.
    NoMemory = 3,
    /// The name is not in the catalogue.
    NotListed = 4,
    /// The store refused the entry.
    NotStored = 5,
}

impl fmt::Display for Refusal {
    ghost use Rattle.std.specs.Prelude.{Some};
    ghost use Rattle.desk_core.specs.Refusal.{refusal_text};

    ghost output = { λ refusal. Some (refusal_text refusal) };

    fn fmt<W: fmt::Write>(&self, f: &mut fmt::Formatter<W>) -> fmt::Result {
        f.write_str(match self {
            Refusal::BadRule => "the rule is not lawful",
            Refusal::Full => "the journal is full",
            Refusal::NoMemory => "out of memory",
            Refusal::NotListed => "the name is not in the catalogue",
            Refusal::NotStored => "not stored",
        })
    }
}

impl Error for Refusal {}
