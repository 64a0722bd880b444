use std::fmt;

/// Why a look failed.
#[derive(Clone, Copy, Debug, PartialEq, Eq)]
pub enum Why {
    /// The name of the host has no address.
    NoAddress,
    /// No address of it takes a connection.
    Refused,
    /// The answer broke off.
    Closed,
    /// The answer is none of HTTP, or none of gRPC-Web.
    Malformed,
    /// The answer is longer than a look reads.
    TooLong,
    /// Another status code of HTTP.
    Status(u16),
    /// Another status of a service, by its number in health.proto, or none.
    NotServing(Option<u64>),
    /// The call ended with another status code of gRPC than OK.
    Code(u32),
    /// The limit was over.
    Late,
    OutOfMemory,
}

/// What a look comes to.
#[derive(Clone, Copy, PartialEq, Eq)]
pub enum Verdict {
    Pass,
    Fail(Why),
}

impl Verdict {
    ghost use Rattle.std.specs.Prelude.{◌≡◌};
    ghost use Rattle.observing.specs.Verdict.{is_pass};

    /// Whether it is a pass.
    pub fn is_pass(self) -> bool
        ensures { result ≡ is_pass self }
    {
        match self {
            Verdict::Pass => true,
            Verdict::Fail(_) => false,
        }
    }
}

impl fmt::Display for Why {
    fn fmt<W: fmt::Write>(&self, f: &mut fmt::Formatter<W>) -> fmt::Result {
        match *self {
            Why::NoAddress => f.write_str("no address"),
            Why::Refused => f.write_str("refused"),
            Why::Closed => f.write_str("closed before its answer"),
            Why::Malformed => f.write_str("malformed answer"),
            Why::TooLong => f.write_str("too long an answer"),
            Why::Status(code) => write!(f, "status {code}"),
            Why::NotServing(status) => f.write_str(status_name(status)),
            Why::Code(code) => write!(f, "gRPC code {code}"),
            Why::Late => f.write_str("late"),
            Why::OutOfMemory => f.write_str("out of memory"),
        }
    }
}

impl fmt::Display for Verdict {
    fn fmt<W: fmt::Write>(&self, f: &mut fmt::Formatter<W>) -> fmt::Result {
        match *self {
            Verdict::Pass => f.write_str("pass"),
            Verdict::Fail(why) => write!(f, "fail: {why}"),
        }
    }
}

/// How a status of a service is spelled.
fn status_name(status: Option<u64>) -> &'static str {
    match status {
        Some(0) => "unknown",
        Some(2) => "not_serving",
        Some(3) => "service_unknown",
        Some(_) => "no known status",
        None => "no status",
    }
}
