ghost use Rattle.std.specs.Prelude.{◌≡◌, ◌↔◌, IsTrue};
ghost use Rattle.control.specs.Beside.{IsLineMetBeside};
ghost use Rattle.control.specs.WebLine.{IsForeign};

use crate::answer::Answer;
use crate::meeting::meet_text;
use crate::server::Server;
use crate::session_terms::SessionTerms;
use crate::web_line::is_web_line;
use desk_core::Console;
use probe_core::{Maker, Probe};
use std::alloc::Global;

/// Does what a line asks for, which stands before LF, unless it is none of a session.
pub(crate) fn answer_line<P: Probe, C: Console<P>, V: Server, M: Maker<P>>(
    alloc: Global,
    console: &mut C,
    server: &mut V,
    maker: &M,
    line: &[u8],
) -> Answer
    ensures names { C.names console.new ≡ C.names console.old }
    ensures met { IsLineMetBeside C.seen C.kept C.looks C.answers V.terms V.counted V.woken
        V.expected V.stopped (C.names console.old) (console.old, server.old)
        (console.new, server.new) line.now result }
{
    if is_foreign(server.terms(), line) {
        return Answer::NotASession;
    }
    meet_text(alloc, console, server, maker, line)
}

/// Whether a browser may have sent the line, for a web page.
fn is_foreign(terms: SessionTerms, line: &[u8]) -> bool
    ensures { IsTrue result ↔ IsForeign terms line.now }
{
    terms.over_tcp && is_web_line(line)
}
