use crate::moment::Moment;
use log_lines::{Allowance, Event, JournalLine, Line, Outlet, Writer};
use std::alloc::{AllocError, Global};

/// Writes lines, as many as may be written and as fast as they are taken, unless it has no outlet.
#[derive(Drop)]
pub(crate) struct Pen {
    alloc: Global,
    allowance: Allowance,
    writer: Option<Writer>,
    /// Whether lines have their priority before them.
    is_journal: bool,
    /// How many lines were dropped of which nobody was told yet.
    dropped: u64,
}

impl Pen {
    /// A pen that writes to this outlet, or nothing.
    pub(crate) fn new(alloc: Global, outlet: Option<Outlet>) -> Result<Pen, AllocError> {
        let writer = match outlet {
            Some(outlet) => Some(Writer::new(alloc, outlet)?),
            None => None,
        };
        Ok(Pen {
            alloc,
            allowance: Allowance::new(),
            writer,
            is_journal: outlet.is_some_and(|outlet| outlet.is_journal),
            dropped: 0,
        })
    }

    pub(crate) fn alloc(&self) -> Global {
        self.alloc
    }

    /// Whether a line may be written now. One that may not is counted as left out.
    pub(crate) fn may_write(&mut self, moment: Moment) -> bool {
        self.writer.is_some() && self.allowance.take(moment.millis)
    }

    /// Takes a line that may be written. One that finds no room is counted as dropped.
    pub(crate) fn push(&mut self, line: Line<'_>) {
        let Some(writer) = &mut self.writer else {
            return;
        };
        let text = if self.is_journal {
            JournalLine(line).to_string(self.alloc)
        } else {
            line.to_string(self.alloc)
        };
        match text {
            Ok(text) => {
                writer.push(text.as_bytes());
            }
            Err(_) => self.lose(),
        }
    }

    /// A line that may be written is dropped, since memory ran out.
    pub(crate) fn lose(&mut self) {
        self.dropped = self.dropped.saturating_add(1);
    }

    /// Takes a line of now, if it may be written.
    pub(crate) fn write(&mut self, moment: Moment, event: Event<'_>) {
        if self.may_write(moment) {
            self.push_now(moment, event);
        }
    }

    fn push_now(&mut self, moment: Moment, event: Event<'_>) {
        let time = moment.time();
        self.push(Line {
            time: time.as_str(),
            event,
        });
    }

    /// Tells how many lines there were that nobody was told, once there is room for that.
    pub(crate) fn account(&mut self, moment: Moment) {
        let Some(writer) = &mut self.writer else {
            return;
        };
        if writer.write_now() {
            return;
        }
        let dropped = self.dropped.saturating_add(writer.take_dropped());
        self.dropped = dropped;
        if let Some(count) = self.allowance.left_out(moment.millis) {
            self.push_now(moment, Event::LeftOut(count));
        }
        if dropped > 0 && self.may_write(moment) {
            self.dropped = 0;
            self.push_now(moment, Event::Dropped(dropped));
        }
    }

    /// Writes what there is room for now.
    pub(crate) fn write_now(&mut self) {
        if let Some(writer) = &mut self.writer {
            writer.write_now();
        }
    }
}
