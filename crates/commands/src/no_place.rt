/// The longest path of a socket, in bytes.
const MAX_PATH_LEN: usize = 107;

/// Why a text is no place of a server.
pub(crate) fn why_no_place(text: &str) -> &'static str {
    if text.starts_with('/') && text.len() > MAX_PATH_LEN {
        "longer than 107 bytes, the most that the path of a socket may have"
    } else {
        "not a loopback address and a port, nor the path of a socket"
    }
}
