ghost use Rattle.std.specs.Prelude.{◌≡◌, List, Some, length};
ghost use Rattle.desk_core.specs.declared.entry.Entry.{Entry};
ghost use Rattle.desk_core.specs.Status.{checked};
ghost use Rattle.desk_core.specs.Board.{board_of, entries_in, status_in};

use crate::slot::Slot;
use crate::status_word::StatusWord;
use health_wire::Serving;

/// How many entries the journal had when `Desk::board` gave this word.
pub fn board_entries(word: u64) -> u32
    ensures value { result ≡ entries_in word }
    ensures board { (entries : List Entry) → word ≡ board_of entries → result ≡ length entries }
{
    (word >> 32) as u32
}

/// What `Desk::check` answered for the slot when `Desk::board` gave this word.
pub fn board_status(word: u64, slot: Slot) -> Option<Serving>
    ensures value { result ≡ status_in word slot }
    ensures board { (entries : List Entry) → word ≡ board_of entries
        → result ≡ checked entries (Some slot) }
{
    StatusWord::on_board(word).get(slot)
}
