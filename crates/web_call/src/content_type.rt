ghost use Rattle.std.specs.Prelude.{◌≡◌, length, map, position, All};
ghost use Rattle.std.specs.List.{before_first};
ghost use Rattle.httparse.specs.Spans.{IsHeaderWithin, header_bytes};
ghost use Rattle.web_call.specs.ContentType.{has_grpc_web, is_grpc_web, is_semicolon, media_type};

use crate::lines::first_named;
use grpc_frame::trim;
use httparse::spans::HeaderSpan;

/// Whether the body is of binary gRPC-Web with messages of Protocol Buffers.
pub(crate) fn has_grpc_web(head: &[u8], lines: &[HeaderSpan]) -> bool
    requires { All (IsHeaderWithin (length head.now)) lines.now }
    ensures { result ≡ has_grpc_web (map (header_bytes head.now) lines.now) }
{
    match first_named(head, lines, b"content-type") {
        Some(value) => is_grpc_web(media_type(value)),
        None => false,
    }
}

fn is_grpc_web(media_type: &[u8]) -> bool
    ensures { result ≡ is_grpc_web media_type.now }
{
    media_type.eq_ignore_ascii_case(b"application/grpc-web")
        || media_type.eq_ignore_ascii_case(b"application/grpc-web+proto")
}

fn media_type(value: &[u8]) -> &[u8]
    ensures { result.now ≡ media_type value.now }
{
    trim(before_semicolon(value))
}

fn before_semicolon(value: &[u8]) -> &[u8]
    ensures { result.now ≡ before_first is_semicolon value.now }
{
    match semicolon_at(value) {
        Some(at) => &value[..at],
        None => value,
    }
}

fn semicolon_at(value: &[u8]) -> Option<usize>
    ensures { result ≡ position is_semicolon value.now }
{
    value.iter().position(|c| *c == b';')
}
