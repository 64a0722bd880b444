//! Requests as clients send them.

/// A Check of the empty name. Its head has 107 bytes.
pub const CHECK_OF_EMPTY: &[u8] = b"POST /grpc.health.v1.Health/Check HTTP/1.1\r\n\
    content-type: application/grpc-web+proto\r\n\
    content-length: 5\r\n\
    \r\n\
    \x00\x00\x00\x00\x00";

/// A Watch of the empty name. Its head has 107 bytes.
pub const WATCH_OF_EMPTY: &[u8] = b"POST /grpc.health.v1.Health/Watch HTTP/1.1\r\n\
    content-type: application/grpc-web+proto\r\n\
    content-length: 5\r\n\
    \r\n\
    \x00\x00\x00\x00\x00";

/// A Watch of `a`.
pub const WATCH_OF_A: &[u8] = b"POST /grpc.health.v1.Health/Watch HTTP/1.1\r\n\
    content-type: application/grpc-web+proto\r\n\
    content-length: 8\r\n\
    \r\n\
    \x00\x00\x00\x00\x03\x0a\x01a";

/// A Watch of `zz`. Its head has 107 bytes.
pub const WATCH_OF_ZZ: &[u8] = b"POST /grpc.health.v1.Health/Watch HTTP/1.1\r\n\
    content-type: application/grpc-web+proto\r\n\
    content-length: 9\r\n\
    \r\n\
    \x00\x00\x00\x00\x04\x0a\x02zz";

/// A call of a method that is not served. Its head has 106 bytes.
pub const LIST: &[u8] = b"POST /grpc.health.v1.Health/List HTTP/1.1\r\n\
    content-type: application/grpc-web+proto\r\n\
    content-length: 5\r\n\
    \r\n\
    \x00\x00\x00\x00\x00";
