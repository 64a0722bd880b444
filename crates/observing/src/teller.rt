//! Tells a control place what looks came to, in a thread of its own. A place that is lost is tried again once a second has passed, and
//! reports that come meanwhile are counted and dropped.

use crate::desk::Desk;
use crate::note::Note;
use crate::observed::Telling;
use crate::report::Report;
use crate::target::Target;
use crate::told::{answer_to, is_open, line_of};
use control::{ControlClient, Place, connect_within, is_refused};
use std::alloc::Global;
use std::io::ErrorKind;
use std::net::{Net, TcpStream};
use std::sync::Wait;
use std::time::{Clock, Duration, Instant};

/// How many seconds a connection, and each step of a line and its answer, may take.
const PATIENCE_SECONDS: u64 = 2;

/// After how many seconds a lost place is tried again.
const PAUSE_SECONDS: u64 = 1;

/// For how many milliseconds a connection is taken to be open over which an answer has come.
const FRESH_MILLIS: u64 = 500;

pub(crate) struct Teller<'a> {
    place: Place<'a>,
    targets: &'a [Target],
    client: Option<ControlClient>,
    /// Before this reading a lost place is not tried again.
    pause: Option<Instant>,
    /// Before this reading the connection is taken to be open: the place has just answered.
    fresh: Option<Instant>,
    /// The refusal that was noted last for each target, while it stands.
    refusals: Vec<Option<String>>,
    telling: Telling,
}

impl Drop for Teller<'_> {
    fn drop(self) {
        let Teller {
            place: _,
            targets: _,
            client: _,
            pause: _,
            fresh: _,
            refusals: _,
            telling: _,
        } = self;
    }
}

impl<'a> Teller<'a> {
    /// One that has no connection yet.
    pub(crate) fn new(
        place: Place<'a>,
        targets: &'a [Target],
        refusals: Vec<Option<String>>,
    ) -> Teller<'a> {
        Teller {
            place,
            targets,
            client: None,
            pause: None,
            fresh: None,
            refusals,
            telling: Telling { told: 0, untold: 0 },
        }
    }

    /// Tells reports until none comes any more.
    pub(crate) fn run<R>(mut self, rt: &R, alloc: Global, desk: &Desk) -> Telling
    where
        R: Wait + Clock + Net<Stream = TcpStream>,
    {
        for _ in rt.forever() {
            let Some(report) = desk.reports.wait(rt) else {
                return self.telling;
            };
            let is_told = self.tell(rt, alloc, desk, report);
            self.count(is_told);
        }
        unreachable!()
    }

    fn count(&mut self, is_told: bool) {
        if is_told {
            self.telling.told = self.telling.told.saturating_add(1);
        } else {
            self.telling.untold = self.telling.untold.saturating_add(1);
        }
    }

    /// Whether the report was told, and the server did what it asks for.
    fn tell<R>(&mut self, rt: &R, alloc: Global, desk: &Desk, report: Report) -> bool
    where
        R: Wait + Clock + Net<Stream = TcpStream>,
    {
        let targets = self.targets;
        let Some(target) = targets.get(report.place) else {
            return false;
        };
        let Some(line) = line_of(alloc, target.name(), report.passes) else {
            return false;
        };
        match self.answer(rt, alloc, &line) {
            Ok(answer) => {
                self.note_answer(rt, alloc, desk, report.place, &answer);
                !is_refused(&answer)
            }
            Err(Some(kind)) => {
                self.lose(rt, desk, kind);
                false
            }
            Err(None) => false,
        }
    }

    /// The answer to a line, over a connection that is made anew where the server has closed it. No error is told while a lost place is
    /// left alone.
    fn answer<R>(
        &mut self,
        rt: &R,
        alloc: Global,
        line: &[u8],
    ) -> Result<Vec<u8>, Option<ErrorKind>>
    where
        R: Clock + Net<Stream = TcpStream>,
    {
        let client = match self.open_client(rt) {
            Some(client) => client,
            None => self.connect(rt)?,
        };
        match answer_to(alloc, &client, patience(), line) {
            Ok(answer) => {
                self.client = Some(client);
                self.fresh = later(rt, Duration::from_millis(FRESH_MILLIS));
                Ok(answer)
            }
            Err(kind) => Err(Some(kind)),
        }
    }

    /// The connection, unless the server has closed it. To see that takes a moment, so that it is not looked at where the place has
    /// just answered.
    fn open_client<C: Clock>(&mut self, clock: &C) -> Option<ControlClient> {
        let client = self.client.take()?;
        if is_before(clock, self.fresh) || is_open(&client) {
            Some(client)
        } else {
            None
        }
    }

    fn connect<R>(&self, rt: &R) -> Result<ControlClient, Option<ErrorKind>>
    where
        R: Clock + Net<Stream = TcpStream>,
    {
        if is_before(rt, self.pause) {
            return Err(None);
        }
        match connect_within(rt, self.place, patience()) {
            Ok(client) => {
                let _ = client.set_write_timeout(Some(patience()));
                Ok(client)
            }
            Err(error) => Err(Some(error.kind())),
        }
    }

    /// The place is lost, which is noted once.
    fn lose<R: Wait + Clock>(&mut self, rt: &R, desk: &Desk, kind: ErrorKind) {
        if self.pause.is_none() {
            desk.notes.put(rt, Note::Lost(kind));
            desk.wake();
        }
        self.client = None;
        if let Some(pause) = later(rt, Duration::from_secs(PAUSE_SECONDS)) {
            self.pause = Some(pause);
        }
    }

    /// The place answered. A refusal is noted once while it stands.
    fn note_answer<R: Wait>(
        &mut self,
        rt: &R,
        alloc: Global,
        desk: &Desk,
        place: usize,
        answer: &[u8],
    ) {
        if self.pause.is_some() {
            self.pause = None;
            desk.notes.put(rt, Note::Found);
            desk.wake();
        }
        let refusal = if is_refused(answer) {
            text_of(alloc, answer)
        } else {
            None
        };
        if let Some(noted) = self.refusals.get_mut(place) {
            if *noted != refusal {
                note_refusal(rt, desk, place, &refusal);
            }
            *noted = refusal;
        }
    }
}

fn note_refusal<R: Wait>(rt: &R, desk: &Desk, place: usize, refusal: &Option<String>) {
    if let Some(text) = refusal {
        if let Ok(text) = text.clone() {
            desk.notes.put(rt, Note::Refused(place, text));
            desk.wake();
        }
    }
}

fn text_of(alloc: Global, answer: &[u8]) -> Option<String> {
    let text = str::from_utf8(answer).ok()?;
    String::from_str(alloc, text).ok()
}

/// Whether a reading is still to come.
fn is_before<C: Clock>(clock: &C, until: Option<Instant>) -> bool {
    match (until, Instant::now(clock)) {
        (Some(until), Ok(now)) => now < until,
        _ => false,
    }
}

/// The reading that comes so long after this one.
fn later<C: Clock>(clock: &C, time: Duration) -> Option<Instant> {
    Instant::now(clock).ok()?.checked_add(time)
}

fn patience() -> Duration {
    Duration::from_secs(PATIENCE_SECONDS)
}
