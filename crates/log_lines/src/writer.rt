ghost use Rattle.std.specs.Prelude.{◌≡◌, ◌+◌, ◌≤◌, ◌≢◌, ◌↔◌, ◌++◌, [], IfOk, IsTrue, length};
ghost use Rattle.std.specs.Bool.{OnFalse, OnTrue};

use crate::outlet::Outlet;
use crate::waiting::Waiting;
use std::alloc::{AllocError, Global};
use std::marker::Model;

/// Writes lines, and never waits for whoever reads them: what there is no room for waits in memory, of which it takes 64 KiB at once
/// and no more later. The descriptor is not closed.
///
/// Where the outlet is shared, a write may wait for another process that takes the room in between, or for a terminal that has less than
/// it says. A write to a file may wait for its disk.
#[derive(Drop)]
pub struct Writer {
    outlet: Outlet,
    waiting: Waiting,
    dropped: u64,
}

/// The descriptor and whether its file is shared, the bytes that wait, and how many lines were dropped that nobody was told of.
impl Model for Writer {
    ghost use Rattle.log_lines.specs.Writer.{WriterState, writer_code};

    ghost Value = { WriterState };

    ghost coded = { writer_code };

    ghost view = { λ writer. record {
      descriptor = writer.outlet.descriptor;
      is_shared = writer.outlet.is_shared;
      waiting = writer.waiting;
      dropped = writer.dropped;
    } };
}

impl Writer {
    ghost use Rattle.log_lines.specs.Writer.{IsRestOf, one_more};

    /// A writer to this outlet.
    pub fn new(alloc: Global, outlet: Outlet) -> Result<Writer, AllocError>
        ensures { IfOk result (λ writer. writer ≡ record {
          descriptor = outlet.descriptor;
          is_shared = outlet.is_shared;
          waiting = [];
          dropped = 0;
        }) }
    {
        Ok(Writer {
            outlet,
            waiting: Waiting::new(alloc)?,
            dropped: 0,
        })
    }

    /// Takes a whole line, with its line feed, if there is room for it. One for which there is none is dropped, and counted.
    pub fn push(&mut self, line: &[u8]) -> bool
        ensures room { IsTrue result ↔ (length self.old.waiting + length line.now ≤ 65536) }
        ensures pushed { OnTrue result (self.new
            ≡ record self.old { waiting = self.old.waiting ++ line.now }) }
        ensures full { OnFalse result (self.new
            ≡ record self.old { dropped = one_more self.old.dropped }) }
    {
        let is_taken = self.waiting.push(line);
        if !is_taken {
            self.dropped = self.dropped.saturating_add(1);
        }
        is_taken
    }

    /// Writes what there is room for now, the oldest first, and tells whether something is left that waits for room, for a disk that has
    /// some, or for somebody who reads.
    pub fn write_now(&mut self) -> bool
        ensures rest { IsRestOf self.old.waiting self.new.waiting }
        ensures none_left { IsTrue result ↔ (self.new.waiting ≢ []) }
        ensures dropped { self.new.dropped ≡ self.old.dropped }
        ensures descriptor { self.new.descriptor ≡ self.old.descriptor }
        ensures shared { self.new.is_shared ≡ self.old.is_shared }
    {
        while !self.waiting.is_empty() {
            let count = self.outlet.write(self.waiting.next());
            if count == 0 {
                return true;
            }
            self.waiting.drop_front(count);
        }
        false
    }

    /// How many lines were dropped. It is told once.
    pub fn take_dropped(&mut self) -> u64
        ensures told { result ≡ self.old.dropped }
        ensures left { self.new ≡ record self.old { dropped = 0 } }
    {
        let dropped = self.dropped;
        self.dropped = 0;
        dropped
    }
}
