use safe_text::SafeText;
use std::fmt;

/// The name of a service as lines have it: `-` stands for the whole server.
pub(crate) fn word_of(name: &str) -> SafeText<'_> {
    SafeText(if name.is_empty() { "-" } else { name })
}

/// So many of something, as `1 line` or `2 lines`.
#[derive(Clone, Copy)]
pub(crate) struct Counted {
    pub(crate) count: u64,
    pub(crate) one: &'static str,
    pub(crate) more: &'static str,
}

impl fmt::Display for Counted {
    fn fmt<W: fmt::Write>(&self, f: &mut fmt::Formatter<W>) -> fmt::Result {
        let Counted { count, one, more } = *self;
        let noun = if count == 1 { one } else { more };
        write!(f, "{count} {noun}")
    }
}

pub(crate) fn lines(count: u64) -> Counted {
    Counted {
        count,
        one: "line",
        more: "lines",
    }
}

pub(crate) fn services(count: u32) -> Counted {
    Counted {
        count: u64::from(count),
        one: "service",
        more: "services",
    }
}

pub(crate) fn entries(count: u32) -> Counted {
    Counted {
        count: u64::from(count),
        one: "entry",
        more: "entries",
    }
}

pub(crate) fn fails(count: u32) -> Counted {
    Counted {
        count: u64::from(count),
        one: "fail",
        more: "fails",
    }
}
