use std::fmt;

/// What is wrong with a target as it is written, and what was expected.
#[derive(Clone, Copy, Debug, PartialEq, Eq)]
pub enum TargetFault {
    /// It has no equals sign.
    NoUrl,
    NoName,
    /// The name is no word of a line.
    BadName,
    /// The URL has another scheme, or none.
    BadScheme,
    /// The URL has a space, a control character, a `#`, or one that is not ASCII.
    BadByte,
    NoHost,
    BadHost,
    NoPort,
    BadPort,
    /// A target of `tcp` has no path.
    PathOnTcp,
    OutOfMemory,
}

impl fmt::Display for TargetFault {
    fn fmt<W: fmt::Write>(&self, f: &mut fmt::Formatter<W>) -> fmt::Result {
        f.write_str(match *self {
            TargetFault::NoUrl => "no URL, expected NAME=URL as in db=tcp://localhost:5432",
            TargetFault::NoName => "no name, expected NAME=URL, with - for the whole server",
            TargetFault::BadName => "a space or a control character in the name, expected one word",
            TargetFault::BadScheme => "another scheme, expected tcp://, http:// or grpc-web://",
            TargetFault::BadByte => {
                "a character that a URL has not, expected printable ASCII without space and #"
            }
            TargetFault::NoHost => "no host, expected a name, an IPv4 or an [IPv6] address",
            TargetFault::BadHost => "no such host, expected a name, an IPv4 or an [IPv6] address",
            TargetFault::NoPort => "no port, expected HOST:PORT",
            TargetFault::BadPort => "no such port, expected a number from 1 to 65535",
            TargetFault::PathOnTcp => "a path, expected tcp://HOST:PORT alone",
            TargetFault::OutOfMemory => "out of memory",
        })
    }
}
