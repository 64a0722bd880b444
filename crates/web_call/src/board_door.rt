use crate::Door;
use desk_core::Catalogue;

/// A door that shows all statuses at once too.
pub trait BoardDoor: Door {
    ghost use Rattle.std.specs.Prelude.{◌≡◌};
    ghost use Rattle.desk_core.specs.Board.{board_of};
    ghost use Rattle.desk_core.specs.Legal.{IsLegal};

    /// The names of the services.
    fn catalogue(&self) -> &Catalogue
        ensures { result.now ≡ Self.names self.now };

    /// All statuses, and how many entries there are, at one point of the history.
    fn board(&mut self) -> u64
        ensures names { Self.names self.new ≡ Self.names self.old }
        ensures legal { IsLegal (Self.seen self.new) }
        ensures follows { Self.follows (Self.seen self.old) (Self.seen self.new) }
        ensures stays { Self.stays self.old self.new }
        ensures board { result ≡ board_of (Self.seen self.new) };
}
