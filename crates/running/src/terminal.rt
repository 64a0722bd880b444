ghost use Rattle.std.specs.Prelude.{◌↔◌, IsTrue};
ghost use Rattle.running.specs.Terminal.{IsTerminalPath};

use std::fs;
use std::rt::Files;

/// What Linux has for the file of standard input.
const STANDARD_INPUT: &str = "/proc/self/fd/0";

/// Whether standard input is a terminal, as far as the system tells the name of its file.
pub fn is_input_terminal<R: Files + Alloc>(rt: &R) -> bool {
    match fs::read_link(rt, STANDARD_INPUT) {
        Ok(path) => is_terminal_path(path.as_path().as_str()),
        Err(_) => false,
    }
}

/// Whether a file of this name is a terminal.
pub fn is_terminal_path(path: &str) -> bool
    ensures { IsTrue result ↔ IsTerminalPath path.now }
{
    path.starts_with("/dev/pts/") || path.starts_with("/dev/tty") || path == "/dev/console"
}
