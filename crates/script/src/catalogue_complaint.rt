ghost use Rattle.std.specs.Prelude.{◌≡◌};
ghost use Rattle.std.specs.Option.{option_map};
ghost use Rattle.script.specs.CatalogueComplaint.{complaint_text, first_double, first_long, text_in};
ghost use Rattle.script.specs.TextLines.{texts};

use crate::quoted::Quoted;
use desk_core::CatalogueFault;
use std::fmt;

const MAX_NAME_LEN: usize = 128;

/// What is wrong with the names of a catalogue, in the words that a message has for it.
#[derive(Clone, Copy)]
pub(crate) enum CatalogueComplaint<'a> {
    NoNames,
    /// How many there are.
    TooMany(usize),
    TooLong(&'a str),
    TwiceListed(&'a str),
    NoEmptyName,
}

impl fmt::Display for CatalogueComplaint<'_> {
    ghost use Rattle.std.specs.Prelude.{Some};
    ghost use Rattle.script.specs.CatalogueComplaint.{complaint_text};

    ghost output = { λ complaint. Some (complaint_text complaint) };

    fn fmt<W: fmt::Write>(&self, f: &mut fmt::Formatter<W>) -> fmt::Result {
        match *self {
            CatalogueComplaint::NoNames => f.write_str("no names"),
            CatalogueComplaint::TooMany(count) => write!(f, "{count} names, 16 are allowed"),
            CatalogueComplaint::TooLong(word) => {
                let word = Quoted(word);
                write!(f, "{word} has more than 128 bytes")
            }
            CatalogueComplaint::TwiceListed(word) => {
                let word = Quoted(word);
                write!(f, "{word} is listed twice")
            }
            CatalogueComplaint::NoEmptyName => {
                f.write_str("no empty name, expected - among the names")
            }
        }
    }
}

/// What is wrong with the names for which these words stand, where this is their fault.
pub(crate) fn complaint_in<'a>(
    words: &[&'a str],
    fault: CatalogueFault,
) -> Option<CatalogueComplaint<'a>>
    ensures { option_map complaint_text result ≡ text_in (texts words.now) fault }
{
    match fault {
        CatalogueFault::NoNames => Some(CatalogueComplaint::NoNames),
        CatalogueFault::TooMany => Some(CatalogueComplaint::TooMany(words.len())),
        CatalogueFault::TooLong => first_long(words).map(CatalogueComplaint::TooLong),
        CatalogueFault::TwiceListed => first_double(words).map(CatalogueComplaint::TwiceListed),
        CatalogueFault::NoEmptyName => Some(CatalogueComplaint::NoEmptyName),
        CatalogueFault::NoMemory => None,
    }
}

fn first_long<'a>(words: &[&'a str]) -> Option<&'a str>
    ensures { option_map (λ word. word.now) result ≡ first_long (texts words.now) }
{
    let mut rest = words;
    'words: while let [word, others @ ..] = rest {
        if word.len() > MAX_NAME_LEN {
            return Some(word);
        }
        rest = others;
    }
    None
}

/// The first word that stands again behind its place.
fn first_double<'a>(words: &[&'a str]) -> Option<&'a str>
    ensures { option_map (λ word. word.now) result ≡ first_double (texts words.now) }
{
    let mut rest = words;
    'words: while let [word, others @ ..] = rest {
        if others.contains(word) {
            return Some(word);
        }
        rest = others;
    }
    None
}
