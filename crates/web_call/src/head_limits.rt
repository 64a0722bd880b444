//! The limits of a head, be it a request's or a response's.

/// The most bytes that are read as a head.
pub const MAX_HEAD_LEN: usize = 8_192;

/// The most header lines.
pub const MAX_LINES: usize = 32;

/// A request line or a status line, the header lines, and the empty line.
pub const MAX_LINE_FEEDS: usize = MAX_LINES + 2;

/// What a head ends in: the end of its last line, and an empty line.
pub const HEAD_END: &[u8] = b"\r\n\r\n";
