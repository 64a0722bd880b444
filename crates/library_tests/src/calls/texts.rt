//! Responses, as the standards have them.

/// A Check of a service that is serving.
pub(crate) const SERVING: &[u8] = b"HTTP/1.1 200 OK\r\n\
    connection: close\r\n\
    content-type: application/grpc-web+proto\r\n\
    content-length: 27\r\n\
    \r\n\
    \x00\x00\x00\x00\x02\x08\x01\
    \x80\x00\x00\x00\x0fgrpc-status:0\r\n";

pub(crate) const METHOD_NOT_ALLOWED: &[u8] = b"HTTP/1.1 405 Method Not Allowed\r\n\
    connection: close\r\n\
    allow: POST\r\n\
    content-length: 0\r\n\
    \r\n";

pub(crate) const HEAD_TOO_LARGE: &[u8] = b"HTTP/1.1 431 Request Header Fields Too Large\r\n\
    connection: close\r\n\
    content-length: 0\r\n\
    \r\n";

pub(crate) const UNKNOWN_SERVICE: &[u8] = b"HTTP/1.1 200 OK\r\n\
    connection: close\r\n\
    content-type: application/grpc-web+proto\r\n\
    content-length: 50\r\n\
    \r\n\
    \x80\x00\x00\x00\x2dgrpc-status:5\r\n\
    grpc-message:unknown service\r\n";

pub(crate) const REQUEST_TOO_LARGE: &[u8] = b"HTTP/1.1 200 OK\r\n\
    connection: close\r\n\
    content-type: application/grpc-web+proto\r\n\
    content-length: 52\r\n\
    \r\n\
    \x80\x00\x00\x00\x2fgrpc-status:8\r\n\
    grpc-message:request too large\r\n";

pub(crate) const UNKNOWN_METHOD: &[u8] = b"HTTP/1.1 200 OK\r\n\
    connection: close\r\n\
    content-type: application/grpc-web+proto\r\n\
    content-length: 50\r\n\
    \r\n\
    \x80\x00\x00\x00\x2dgrpc-status:12\r\n\
    grpc-message:unknown method\r\n";

/// A Watch of an unknown service.
pub(crate) const WATCH_OF_UNKNOWN: &[u8] = b"HTTP/1.1 200 OK\r\n\
    connection: close\r\n\
    content-type: application/grpc-web+proto\r\n\
    transfer-encoding: chunked\r\n\
    \r\n\
    7\r\n\
    \x00\x00\x00\x00\x02\x08\x03\r\n\
    2f\r\n\
    \x80\x00\x00\x00\x2agrpc-status:14\r\n\
    grpc-message:watch ended\r\n\
    \r\n\
    0\r\n\
    \r\n";

/// A Watch of a service that is serving.
pub(crate) const WATCH_OF_SERVING: &[u8] = b"HTTP/1.1 200 OK\r\n\
    connection: close\r\n\
    content-type: application/grpc-web+proto\r\n\
    transfer-encoding: chunked\r\n\
    \r\n\
    7\r\n\
    \x00\x00\x00\x00\x02\x08\x01\r\n\
    2f\r\n\
    \x80\x00\x00\x00\x2agrpc-status:14\r\n\
    grpc-message:watch ended\r\n\
    \r\n\
    0\r\n\
    \r\n";

/// A Watch of a service that is not serving.
pub(crate) const WATCH_OF_NOT_SERVING: &[u8] = b"HTTP/1.1 200 OK\r\n\
    connection: close\r\n\
    content-type: application/grpc-web+proto\r\n\
    transfer-encoding: chunked\r\n\
    \r\n\
    7\r\n\
    \x00\x00\x00\x00\x02\x08\x02\r\n\
    2f\r\n\
    \x80\x00\x00\x00\x2agrpc-status:14\r\n\
    grpc-message:watch ended\r\n\
    \r\n\
    0\r\n\
    \r\n";

/// A Watch of a service that is serving, and then is not.
pub(crate) const WATCH_OF_FALL: &[u8] = b"HTTP/1.1 200 OK\r\n\
    connection: close\r\n\
    content-type: application/grpc-web+proto\r\n\
    transfer-encoding: chunked\r\n\
    \r\n\
    7\r\n\
    \x00\x00\x00\x00\x02\x08\x01\r\n\
    7\r\n\
    \x00\x00\x00\x00\x02\x08\x02\r\n\
    2f\r\n\
    \x80\x00\x00\x00\x2agrpc-status:14\r\n\
    grpc-message:watch ended\r\n\
    \r\n\
    0\r\n\
    \r\n";

/// A Watch of a service that is not serving, and then is.
pub(crate) const WATCH_OF_RISE: &[u8] = b"HTTP/1.1 200 OK\r\n\
    connection: close\r\n\
    content-type: application/grpc-web+proto\r\n\
    transfer-encoding: chunked\r\n\
    \r\n\
    7\r\n\
    \x00\x00\x00\x00\x02\x08\x02\r\n\
    7\r\n\
    \x00\x00\x00\x00\x02\x08\x01\r\n\
    2f\r\n\
    \x80\x00\x00\x00\x2agrpc-status:14\r\n\
    grpc-message:watch ended\r\n\
    \r\n\
    0\r\n\
    \r\n";

/// A Watch of a service that is serving, then is not, and then is.
pub(crate) const WATCH_OF_FLIPS: &[u8] = b"HTTP/1.1 200 OK\r\n\
    connection: close\r\n\
    content-type: application/grpc-web+proto\r\n\
    transfer-encoding: chunked\r\n\
    \r\n\
    7\r\n\
    \x00\x00\x00\x00\x02\x08\x01\r\n\
    7\r\n\
    \x00\x00\x00\x00\x02\x08\x02\r\n\
    7\r\n\
    \x00\x00\x00\x00\x02\x08\x01\r\n\
    2f\r\n\
    \x80\x00\x00\x00\x2agrpc-status:14\r\n\
    grpc-message:watch ended\r\n\
    \r\n\
    0\r\n\
    \r\n";
