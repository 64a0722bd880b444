ghost use Rattle.std.specs.Prelude.{◌≡◌};
ghost use Rattle.plain.specs.Inquiry.{verb_of};

const GET: &[u8] = b"GET";

const HEAD: &[u8] = b"HEAD";

const POST: &[u8] = b"POST";

/// A method of HTTP, as far as it matters here.
#[derive(Clone, Copy)]
pub(crate) enum Verb {
    Get,
    Head,
    Post,
    Other,
}

/// Which method this is.
pub(crate) fn verb_of(method: &[u8]) -> Verb
    ensures { result ≡ verb_of method.now }
{
    if method == GET {
        Verb::Get
    } else if method == HEAD {
        Verb::Head
    } else if method == POST {
        Verb::Post
    } else {
        Verb::Other
    }
}
