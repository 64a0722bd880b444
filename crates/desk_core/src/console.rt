use crate::extent::Extent;
use crate::recall::Recall;
use crate::registrar::Registrar;
use crate::ruled::Ruled;
use crate::slot::Slot;
use crate::standing::Standing;
use health_wire::Serving;
use probe_core::Probe;

/// A registrar that is asked for statuses too: a registry, seen and changed by one who may share it.
///
/// `kept` is how many entries the registry keeps, or none where it keeps all, and `looks` says that the console has at most seen more.
/// Each call may wait.
pub trait Console<P: Probe>: Registrar<P> {
    ghost use Rattle.std.specs.Prelude.{◌≡◌, ◌-◌, ℕ, Option, length};
    ghost use Rattle.desk_core.specs.Board.{board_of};
    ghost use Rattle.desk_core.specs.Past.{past};
    ghost use Rattle.desk_core.specs.Present.{rule_at};
    ghost use Rattle.desk_core.specs.Recall.{recalled};
    ghost use Rattle.desk_core.specs.Standing.{standing_at};
    ghost use Rattle.desk_core.specs.Status.{status_map};
    ghost use Rattle.tail.specs.Tail.{forgotten};

    ghost kept: { Option ℕ };

    ghost looks: { Self → Self → Type 0 };

    /// What a Check of the name answers; none for a name that is not registered.
    fn check(&mut self, name: &str) -> Option<Serving>
        ensures names { Self.names self.new ≡ Self.names self.old }
        ensures looks { looks self.old self.new }
        ensures status { result ≡ status_map (Self.names self.old) (Self.seen self.new) name.now };

    /// All statuses, and how many entries there are, at one point of the history.
    fn board(&mut self) -> u64
        ensures names { Self.names self.new ≡ Self.names self.old }
        ensures looks { looks self.old self.new }
        ensures board { result ≡ board_of (Self.seen self.new) };

    /// The rule that a slot is registered by, and how many entries there are where it is so.
    fn rule(&mut self, slot: Slot) -> Ruled
        ensures names { Self.names self.new ≡ Self.names self.old }
        ensures looks { looks self.old self.new }
        ensures rule { result.rule ≡ rule_at (Self.seen self.new) slot }
        ensures entries { result.entries ≡ length (Self.seen self.new) };

    /// Why a slot has its status, since when, and when it was reported last.
    fn standing(&mut self, slot: Slot) -> Standing
        ensures names { Self.names self.new ≡ Self.names self.old }
        ensures looks { looks self.old self.new }
        ensures standing { result ≡ standing_at kept (Self.seen self.new) slot };

    /// What is still known of the entry at this place.
    fn recall(&mut self, place: u32) -> Recall
        ensures names { Self.names self.new ≡ Self.names self.old }
        ensures looks { looks self.old self.new }
        ensures recalled { result ≡ recalled kept (past (Self.seen self.new)) place };

    /// How many entries there are, and how many of them are in memory.
    fn extent(&mut self) -> Extent
        ensures names { Self.names self.new ≡ Self.names self.old }
        ensures looks { looks self.old self.new }
        ensures entries { result.entries ≡ length (Self.seen self.new) }
        ensures in_memory { result.kept ≡ length (Self.seen self.new)
            - forgotten kept (length (Self.seen self.new)) };
}
