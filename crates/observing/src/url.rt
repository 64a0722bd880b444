ghost use Rattle.std.specs.Prelude.{◌≡◌, ◌++◌, [], IfOk, IfSome};
ghost use Rattle.observing.specs.Target.{scheme_text, url_text};

use crate::kind::Kind;
use crate::target_fault::TargetFault;
use std::net::Ipv6Addr;

/// The port of `http` where none is written.
const HTTP_PORT: u16 = 80;

/// The URL of a target in its parts, as they are written.
#[derive(Clone, Copy)]
pub(crate) struct Url<'a> {
    pub(crate) kind: Kind,
    pub(crate) authority: &'a str,
    pub(crate) host: &'a str,
    pub(crate) port: u16,
    pub(crate) path: &'a str,
}

/// Reads a URL of one of the three schemes.
pub(crate) fn read_url(text: &str) -> Result<Url<'_>, TargetFault>
    ensures written { IfOk result (λ url. url_text url ≡ text.now) }
    ensures no_path { IfOk result (λ url. url.kind ≡ Kind.Tcp → url.path.now ≡ []) }
{
    let Some((kind, rest)) = kind_of(text) else {
        return Err(TargetFault::BadScheme);
    };
    if !is_printed(rest) {
        return Err(TargetFault::BadByte);
    }
    let (authority, path) = cut_path(rest);
    if kind == Kind::Tcp && !path.is_empty() {
        return Err(TargetFault::PathOnTcp);
    }
    match read_authority(kind, authority) {
        Ok((host, port)) => Ok(Url {
            kind,
            authority,
            host,
            port,
            path,
        }),
        Err(fault) => Err(fault),
    }
}

/// What the scheme says, and what stands behind it.
fn kind_of(text: &str) -> Option<(Kind, &str)>
    ensures { IfSome result (λ found. text.now ≡ scheme_text found.0 ++ found.1.now) }
{
    if let Some(rest) = text.strip_prefix("tcp://") {
        return Some((Kind::Tcp, rest));
    }
    if let Some(rest) = text.strip_prefix("http://") {
        return Some((Kind::Http, rest));
    }
    match text.strip_prefix("grpc-web://") {
        Some(rest) => Some((Kind::GrpcWeb, rest)),
        None => None,
    }
}

/// What stands before the first slash, and the rest.
fn cut_path(text: &str) -> (&str, &str)
    ensures { text.now ≡ result.0.now ++ result.1.now }
{
    match text.find('/') {
        Some(place) => text.split_at(place),
        None => (text, ""),
    }
}

/// The host and the port.
fn read_authority(kind: Kind, text: &str) -> Result<(&str, u16), TargetFault> {
    let Some((host, port)) = cut_port(text) else {
        return without_port(kind, text);
    };
    match read_port(port) {
        Ok(port) => with_port(host, port),
        Err(fault) => Err(fault),
    }
}

fn with_port(host: &str, port: u16) -> Result<(&str, u16), TargetFault> {
    match read_host(host) {
        Ok(host) => Ok((host, port)),
        Err(fault) => Err(fault),
    }
}

/// What stands before the last colon, and behind it. A colon within brackets is none.
fn cut_port(text: &str) -> Option<(&str, &str)> {
    let (host, port) = text.rsplit_once(':')?;
    if port.ends_with(']') {
        return None;
    }
    Some((host, port))
}

fn without_port(kind: Kind, host: &str) -> Result<(&str, u16), TargetFault> {
    match read_host(host) {
        Ok(host) if kind == Kind::Http => Ok((host, HTTP_PORT)),
        Ok(_) => Err(TargetFault::NoPort),
        Err(fault) => Err(fault),
    }
}

fn read_port(text: &str) -> Result<u16, TargetFault> {
    if text.is_empty() {
        return Err(TargetFault::NoPort);
    }
    if !text.bytes().all(|byte| byte.is_ascii_digit()) {
        return Err(TargetFault::BadPort);
    }
    match text.parse::<u16>() {
        Ok(port) if port > 0 => Ok(port),
        _ => Err(TargetFault::BadPort),
    }
}

/// A host without its brackets.
fn read_host(text: &str) -> Result<&str, TargetFault> {
    if text.is_empty() {
        return Err(TargetFault::NoHost);
    }
    if let Some(rest) = text.strip_prefix('[') {
        return match rest.strip_suffix(']') {
            Some(address) if address.parse::<Ipv6Addr>().is_ok() => Ok(address),
            _ => Err(TargetFault::BadHost),
        };
    }
    if !text.bytes().all(is_of_host) {
        return Err(TargetFault::BadHost);
    }
    Ok(text)
}

/// A letter, a digit, a hyphen, a dot or an underscore.
fn is_of_host(byte: u8) -> bool {
    byte.is_ascii_alphanumeric() || byte == b'-' || byte == b'.' || byte == b'_'
}

/// Whether all is printable ASCII, without a space and a `#`.
fn is_printed(text: &str) -> bool {
    text.bytes()
        .all(|byte| byte.is_ascii_graphic() && byte != b'#')
}

/// Whether the name can stand in a line: no space, and no control character.
pub(crate) fn is_word(text: &str) -> bool {
    text.bytes().all(|byte| byte > b' ' && byte != 127)
}
