use std::io::ErrorKind;
use std::{fmt, io};

/// Why the system refused something.
#[derive(Clone, Copy, Debug, PartialEq, Eq)]
pub struct Cause {
    kind: ErrorKind,
    code: Option<i32>,
}

impl From<io::Error> for Cause {
    fn from(error: io::Error) -> Cause {
        Cause {
            kind: error.kind(),
            code: error.raw_os_error(),
        }
    }
}

/// In plain words where the kind of the error has some, and else in the system's own words.
impl fmt::Display for Cause {
    fn fmt<W: fmt::Write>(&self, f: &mut fmt::Formatter<W>) -> fmt::Result {
        match (self.kind, self.code) {
            (ErrorKind::NotFound, _) => f.write_str("not found"),
            (ErrorKind::Uncategorized, Some(code)) => {
                fmt::Display::fmt(&io::Error::from_raw_os_error(code), f)
            }
            (kind, _) => fmt::Display::fmt(&kind, f),
        }
    }
}
