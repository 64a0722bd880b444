ghost use Rattle.std.specs.Prelude.{◌≡◌, ◌∷◌, []};
ghost use Rattle.log_lines.specs.Paced.{is_taken, told_at};

use crate::met::Met;
use crate::second::Second;
use std::marker::Model;
use tail::Whole;

/// How many lines may be written: at most 100 in a second, which begins with the first line that is written in it. The rest is
/// counted. Contracts see it as all that it met, the newest first.
#[derive(Drop)]
pub struct Allowance {
    second: Second,
    past: Whole<Met>,
}

impl Model for Allowance {
    ghost use Rattle.std.specs.Prelude.{◌≡◌, List, reverse};
    ghost use Rattle.log_lines.specs.declared.met.Met.{Met};
    ghost use Rattle.log_lines.specs.Paced.{second_after};

    ghost Value = { List Met };

    ghost view = { λ allowance. reverse allowance.past.items };

    ghost invariant = { λ allowance.
        allowance.second ≡ second_after (reverse allowance.past.items) };
}

impl Allowance {
    ghost use Rattle.log_lines.specs.declared.met.Met.TheVariants.{Asked, Looked};

    /// An allowance of which nothing was taken.
    pub fn new() -> Allowance
        ensures { result ≡ [] }
    {
        Allowance {
            second: Second::new(),
            past: Whole::new(),
        }
    }

    /// Whether a line may be written at this reading. One that may not is counted as left out.
    pub fn take(&mut self, now_millis: u64) -> bool
        ensures taken { result ≡ is_taken self.old now_millis }
        ensures past { self.new ≡ Asked now_millis ∷ self.old }
    {
        self.past = self.past.and(&Met::Asked(now_millis));
        let turned = self.second.turned(now_millis);
        self.second = turned.asked(now_millis);
        turned.has_room()
    }

    /// How many lines were left out, once their second is over. It is told once, and the line that tells it is one of the lines
    /// of its second: it is not told before there is room for one.
    pub fn left_out(&mut self, now_millis: u64) -> Option<u64>
        ensures told { result ≡ told_at self.old now_millis }
        ensures past { self.new ≡ Looked now_millis ∷ self.old }
    {
        self.past = self.past.and(&Met::Looked(now_millis));
        let turned = self.second.turned(now_millis);
        self.second = turned.looked(now_millis);
        turned.told()
    }
}
