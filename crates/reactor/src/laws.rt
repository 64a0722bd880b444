ghost use Rattle.std.specs.Prelude.{◌≡◌, ◌⊎◌, ◌++◌, [], true, ◌+◌, ℕ, Option, Some, is_some, if◌then◌else◌};
ghost use Rattle.control.specs.Session.{SessionState};
ghost use Rattle.control.specs.Talk.{AreLines};
ghost use Rattle.desk_core.specs.Watch.{IsOlder};
ghost use Rattle.reactor.specs.Calling.{IsTransitive};
ghost use Rattle.reactor.specs.Moved.{Moved, followed_by, nothing_moved};
ghost use Rattle.reactor.specs.Talking.{IsDone, IsSessionOf, told_texts};
ghost use Rattle.web_call.specs.declared.bell.Turn.{Turn};
ghost use Rattle.reactor.specs.declared.held_connection.HeldConnection.{HeldConnection};
ghost use Rattle.reactor.specs.Table.{TableState, place_at, IsHeld, is_watch, newcomer, held_count, watch_count, Changes, with_connection, with_watch};

use crate::host::Host;
use crate::machine::Machine;

/// Where one key changes, the counts change by what it held and what it holds.
pub fn counts_change<C>()
    ensures held { (old new : TableState C) (key : ℕ) (place : Option (HeldConnection C)) → Changes old new key place
        → held_count new + (if is_some (place_at old key) then 1 else 0) ≡ held_count old + (if is_some place then 1 else 0) }
    ensures watches { (old new : TableState C) (key : ℕ) (place : Option (HeldConnection C)) → Changes old new key place
        → watch_count new + (if is_watch (place_at old key) then 1 else 0) ≡ watch_count old + (if is_watch place then 1 else 0) }
{}

/// A connection that is changed, or admitted as a Watch, changes its key alone; to admit one again changes nothing.
pub fn one_key_changes<C>()
    ensures connection { (table : TableState C) (key : ℕ) (connection : C) → IsHeld table key
        → Changes table (with_connection table key connection) key (Some (record { connection = connection; is_watch = is_watch (place_at table key) })) }
    ensures watch { (table : TableState C) (key : ℕ) (place : HeldConnection C) → place_at table key ≡ Some place
        → Changes table (with_watch table key) key (Some (record { connection = place.connection; is_watch = true })) }
    ensures again { (table : TableState C) (key : ℕ) → is_watch (place_at table key) ≡ true → with_watch table key ≡ table }
{}

/// Turn upon turn of a machine comes to one conversation, whatever others made of its host between its turns.
///
/// Of a call over a door whose histories are transitive (`HasSpanned`) it says, with `whole_calls` of `web_call`, what was sent: a front
/// of the answer to the request, or all of it, at histories that the door had, in turn. Of a session (`HasSaid`) it says that its lines
/// are those of the bytes that came, each met with its answer, and what was sent the lines of these.
pub fn turns_chain<M: Machine, H: Host<M>>()
    ensures begins { (host : H) (machine : M) → H.spans host host machine machine nothing_moved }
    ensures waits { (first now later : H) (machine machine_now : M) (moved : Moved)
        → H.spans first now machine machine_now moved → H.stays now later
        → H.spans first later machine machine_now moved }
    ensures goes_on { (turn : Turn) (first now later : H) (machine mid machine_now : M)
        (moved more : Moved) → H.spans first now machine mid moved
        → H.goes turn now later mid machine_now more
        → H.spans first later machine machine_now (followed_by moved more) }
{}

/// A history that goes on from one that goes on from another goes on from that one too, as many turns of a call ask it of its door.
pub fn histories_chain()
    ensures { IsTransitive IsOlder }
{}

/// A session that is done has sent all answers, by all that it has moved, and no byte is left that was not part of a line, but behind a
/// line that ends the session.
pub fn sessions_end()
    ensures { (past : Moved) (session : SessionState) → (stood : IsSessionOf past session)
        → IsDone session → session.waiting ≡ []
        → (past.sent ≡ told_texts past.steps stood.answers)
        × ((session.is_over ≡ true) ⊎ AreLines (past.read ++ stood.closing) stood.lines []) }
{}
