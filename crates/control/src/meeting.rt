ghost use Rattle.std.specs.Prelude.{◌≡◌, ◌⊎◌, ℕ, None, Some, IsSome, IfSome, IfNone};
ghost use Rattle.desk_core.specs.Catalogue.{slot_of};
ghost use Rattle.script.specs.Change.{line_change};
ghost use Rattle.control.specs.Beside.{ChangesBeside, ExpectsBeside, IsTextMetBeside};
ghost use Rattle.control.specs.Beside.{IsMetBeside, TellsBeside};
ghost use Rattle.control.specs.Meeting.{reply_by_rule};
ghost use Rattle.control.specs.Request.{IsOfferedRequest};
ghost use Rattle.control.specs.Rights.{IsAllowed};

use crate::answer::Answer;
use crate::description::Description;
use crate::expected::Expected;
use crate::recollection::Recollection;
use crate::request::{Request, read_request};
use crate::server::Server;
use crate::stats::Stats;
use chronicle::TimeText;
use desk_core::{Console, Effect, Extent, Name, Recall, Refusal, Reply, Ruled, Slot, Standing};
use probe_core::{Maker, Probe, Rule};
use script::{Expectation, Line, Question, probe_for, without_cr};
use std::alloc::Global;

/// Does what a request asks for.
pub(crate) fn meet<P: Probe, C: Console<P>, V: Server, M: Maker<P>>(
    console: &mut C,
    server: &mut V,
    maker: &M,
    request: &Request,
) -> Answer
    requires offered { IsOfferedRequest request.now }
    ensures names { C.names console.new ≡ C.names console.old }
    ensures met { IsMetBeside C.seen C.kept C.looks C.answers V.terms V.counted V.woken
        V.expected V.stopped (C.names console.old) (console.old, server.old)
        (console.new, server.new) request.now result }
{
    match request {
        Request::Line(line) => meet_line(console, server, maker, line),
        Request::Expect(expectation) => Answer::Expected(expect(console, server, expectation)),
        Request::Ask(question) => ask(console, server, question),
        Request::List => Answer::Listed(console.board()),
        Request::Stats => Answer::Told(stats(console, server)),
        Request::Stop => {
            server.stop();
            Answer::Stopping
        }
    }
}

/// Counts the entries of the registry, and has the server count the rest.
fn stats<P: Probe, C: Console<P>, V: Server>(console: &mut C, server: &V) -> Stats
    ensures names { C.names console.new ≡ C.names console.old }
    ensures looks { C.looks console.old console.new }
    ensures tells { TellsBeside C.seen C.kept V.terms V.counted (console.new, server.now) result }
{
    let Extent { entries, kept } = console.extent();
    Stats {
        entries,
        kept: kept as u32,
        counts: server.counts(),
        left: server.terms().place.most.saturating_sub(entries),
    }
}

/// Answers a question about the history.
fn ask<P: Probe, C: Console<P>, V: Server>(
    console: &mut C,
    server: &V,
    question: &Question,
) -> Answer
    ensures names { C.names console.new ≡ C.names console.old }
    ensures met { IsMetBeside C.seen C.kept C.looks C.answers V.terms V.counted V.woken
        V.expected V.stopped (C.names console.old) (console.old, server.now)
        (console.new, server.now) (Request.Ask question.now) result }
{
    match question {
        Question::Why(name) => match slot_named(console, name) {
            Some(slot) => Answer::Explained(console.standing(slot).reason),
            None => Answer::NotFound,
        },
        Question::Status(name) => match slot_named(console, name) {
            Some(slot) => {
                let standing = console.standing(slot);
                Answer::Described(describe(server, slot, standing))
            }
            None => Answer::NotFound,
        },
        Question::Entry(place) => {
            let recall = console.recall(*place);
            Answer::Recalled(recollect(server, *place, recall))
        }
    }
}

/// The slot of a name, if it is listed.
fn slot_named<P: Probe, C: Console<P>>(console: &C, name: &Name) -> Option<Slot>
    ensures { result ≡ slot_of (C.names console.now) name.now }
{
    console.catalogue().slot(name.as_str())
}

/// How a service stands, with what the server knows of it.
fn describe<V: Server>(server: &V, slot: Slot, standing: Standing) -> Description
    ensures { result.standing ≡ standing }
{
    Description {
        standing,
        since: time_of(server, standing.since),
        reported: time_of(server, standing.reported),
        seconds: server.seconds(slot),
    }
}

/// When an entry was made, where the server knows.
fn time_of<V: Server>(server: &V, place: Option<u32>) -> Option<TimeText> {
    Some(server.noted(place?)?.time)
}

/// What is known of the entry at a place, with what the server knows of it.
fn recollect<V: Server>(server: &V, place: u32, recall: Recall) -> Recollection
    ensures place { result.place ≡ place }
    ensures recall { result.recall ≡ recall }
{
    Recollection {
        place,
        note: server.noted(place),
        recall,
    }
}

fn meet_line<P: Probe, C: Console<P>, V: Server, M: Maker<P>>(
    console: &mut C,
    server: &mut V,
    maker: &M,
    line: &Line,
) -> Answer
    requires offered { IsOfferedRequest (Request.Line line.now) }
    ensures names { C.names console.new ≡ C.names console.old }
    ensures met { IsMetBeside C.seen C.kept C.looks C.answers V.terms V.counted V.woken
        V.expected V.stopped (C.names console.old) (console.old, server.old)
        (console.new, server.new)
        (Request.Line line.now) result }
{
    match line {
        Line::Check(name) => Answer::Checked(console.check(name.as_str())),
        Line::Board => Answer::Board(console.board()),
        _ => match change(console, server, maker, line) {
            Some(result) => Answer::Changed(result),
            None => Answer::OutOfMemory,
        },
    }
}

/// Makes the change that a line asks for, and wakes the server if it shows. Where there is no memory for its probe it is not asked for.
fn change<P: Probe, C: Console<P>, V: Server, M: Maker<P>>(
    console: &mut C,
    server: &mut V,
    maker: &M,
    line: &Line,
) -> Option<Result<Reply, Refusal>>
    requires change { IsSome (line_change (C.names console.old) line.now) }
    ensures names { C.names console.new ≡ C.names console.old }
    ensures changed { IfSome result (λ reply. IfSome (line_change (C.names console.old) line.now)
        (λ call.
        ChangesBeside C.seen C.answers V.terms V.woken (console.old, server.old) (console.new, server.new) call reply)) }
    ensures failed { IfNone result ((console.new ≡ console.old) × (server.new ≡ server.old)) }
{
    let call = line.call(console.catalogue()).unwrap();
    let Ok(probe) = probe_for(maker, line) else {
        return None;
    };
    let Effect { result, shows, at } = console.change(call, probe);
    take_down(server, result, at);
    if shows {
        server.wake();
    }
    Some(result)
}

/// Tells the server what came of a change: the place of its entry, or why it was refused.
fn take_down<V: Server>(server: &V, outcome: Result<Reply, Refusal>, at: Option<u32>) {
    if let Some(place) = at {
        server.note(place);
    }
    if let Err(refusal) = outcome {
        server.refused(refusal);
    }
}

/// Looks for the rule of a service, and tells the server what is expected of it where the rule
/// follows findings.
fn expect<P: Probe, C: Console<P>, V: Server>(
    console: &mut C,
    server: &mut V,
    expectation: &Expectation,
) -> Result<Reply, Refusal>
    ensures names { C.names console.new ≡ C.names console.old }
    ensures expects { ExpectsBeside (C.names console.old) C.seen C.looks V.terms V.expected
        (console.old, server.old) (console.new, server.new) expectation.now result }
{
    let Some(slot) = console.catalogue().slot(expectation.name.as_str()) else {
        return Err(Refusal::NotListed);
    };
    let Ruled { rule, entries } = console.rule(slot);
    let reply = reply_by_rule(rule);
    if reply == Reply::Done {
        server.expect(Expected {
            slot,
            seconds: expectation.seconds,
            behind: entries,
        });
    }
    Ok(reply)
}

fn reply_by_rule(rule: Option<Rule>) -> Reply
    ensures { result ≡ reply_by_rule rule }
{
    match rule {
        None => Reply::Missing,
        Some(Rule::Threshold(..)) => Reply::Done,
        Some(Rule::Manual | Rule::Depends(_)) => Reply::WrongKind,
    }
}

/// Does what a request asks for, if the server's sessions may ask for it.
fn meet_allowed<P: Probe, C: Console<P>, V: Server, M: Maker<P>>(
    console: &mut C,
    server: &mut V,
    maker: &M,
    request: &Request,
) -> Answer
    requires offered { IsOfferedRequest request.now }
    ensures names { C.names console.new ≡ C.names console.old }
    ensures met { (IsAllowed (V.terms server.old).place.rights request.now
        × IsMetBeside C.seen C.kept C.looks C.answers V.terms V.counted V.woken V.expected
        V.stopped (C.names console.old) (console.old, server.old) (console.new, server.new)
        request.now result)
        ⊎ ((¬ IsAllowed (V.terms server.old).place.rights request.now) × (result ≡ Answer.NotAllowed)
        × (console.new ≡ console.old) × (server.new ≡ server.old)) }
{
    if !server.terms().place.rights.allow(request) {
        return Answer::NotAllowed;
    }
    meet(console, server, maker, request)
}

/// The most bytes of a line.
const MAX_LINE: usize = 1_024;

/// Does what a line asks for, which stands before LF.
pub(crate) fn meet_text<P: Probe, C: Console<P>, V: Server, M: Maker<P>>(
    alloc: Global,
    console: &mut C,
    server: &mut V,
    maker: &M,
    line: &[u8],
) -> Answer
    ensures names { C.names console.new ≡ C.names console.old }
    ensures met { IsTextMetBeside C.seen C.kept C.looks C.answers V.terms V.counted V.woken
        V.expected V.stopped (C.names console.old) (console.old, server.old)
        (console.new, server.new) line.now result }
{
    if line.len() > MAX_LINE {
        return Answer::TooLong;
    }
    let Ok(text) = str::from_utf8(line) else {
        return server.terms().place.rights.unknown_line();
    };
    let content = without_cr(text);
    if content.is_empty() {
        return Answer::Skipped;
    }
    match read_request(alloc, console.catalogue(), content) {
        Ok(Some(request)) => meet_allowed(console, server, maker, &request),
        Ok(None) => server.terms().place.rights.unknown_line(),
        Err(_) => Answer::OutOfMemory,
    }
}
