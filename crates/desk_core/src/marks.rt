//! Which entries made the services what they are.

ghost use Rattle.std.specs.Prelude.{◌≡◌};
ghost use Rattle.desk_core.specs.Marks.{fall_of, next_shut};

use crate::call::{Call, Finding, Setting};
use crate::reply::Reply;
use crate::slot::Slot;
use probe_core::Rule;

/// Of one slot, the places of entries, and how many events of one kind it heard last.
#[derive(Clone, Copy)]
pub(crate) struct Mark {
    /// The newest entry that retired it.
    pub(crate) retired: Option<u32>,
    /// The newest that had it forget what it heard.
    pub(crate) forgot: Option<u32>,
    /// The newest that took it down since.
    pub(crate) down: Option<u32>,
    /// How many fails in a row it heard last.
    pub(crate) fails: u32,
    /// The same of passes.
    pub(crate) passes: u32,
}

/// The marks of all slots, and the newest entry that shut the server down.
#[derive(Drop)]
pub(crate) struct Marks {
    shut: Option<u32>,
    slots: [Mark; 16],
}

impl Mark {
    ghost use Rattle.std.specs.Prelude.{◌≡◌};
    ghost use Rattle.desk_core.specs.Marks.{begun, found, next_mark, set_to, unmarked};

    /// The mark of a slot that was never registered.
    fn new() -> Mark
        ensures { result ≡ unmarked }
    {
        Mark {
            retired: None,
            forgot: None,
            down: None,
            fails: 0,
            passes: 0,
        }
    }

    /// The same behind an entry that has the slot forget what it heard.
    fn begun(self, at: u32) -> Mark
        ensures { result ≡ begun at self }
    {
        Mark {
            forgot: Some(at),
            down: None,
            fails: 0,
            passes: 0,
            ..self
        }
    }

    /// The mark of a slot behind an entry at this place. A report is of a slot that has this rule.
    fn next(self, slot: Slot, call: &Call, reply: Reply, rule: Option<Rule>, at: u32) -> Mark
        ensures { result ≡ next_mark slot call.now reply rule at self }
    {
        let is_done = reply == Reply::Done;
        match *call {
            Call::Register(of, _) if of == slot => self.begun(at),
            Call::Retire(of) if of == slot && is_done => Mark {
                retired: Some(at),
                ..self
            },
            Call::Observe(of, finding) if of == slot && is_done => {
                self.found(finding, fall_of(rule), at)
            }
            Call::Set(of, setting) if of == slot && is_done => self.set(setting, at),
            Call::Resume => self.begun(at),
            _ => self,
        }
    }

    /// The same behind a setting that was heard.
    fn set(self, setting: Setting, at: u32) -> Mark
        ensures { result ≡ set_to setting at self }
    {
        match setting {
            Setting::Up => Mark {
                fails: 0,
                passes: 0,
                ..self
            },
            Setting::Down => Mark {
                down: Some(at),
                fails: 0,
                passes: 0,
                ..self
            },
        }
    }

    /// The same behind a finding that was heard, for a rule that goes down at so many fails in a row.
    fn found(self, finding: Finding, fall: u32, at: u32) -> Mark
        ensures { result ≡ found finding fall at self }
    {
        match finding {
            Finding::Pass => Mark {
                fails: 0,
                passes: self.passes.saturating_add(1),
                ..self
            },
            Finding::Fail => {
                let fails = self.fails.saturating_add(1);
                Mark {
                    down: if fall <= fails { Some(at) } else { self.down },
                    fails,
                    passes: 0,
                    ..self
                }
            }
        }
    }
}

impl Marks {
    ghost use Rattle.std.specs.Prelude.{◌≡◌, ◌<◌, [], ℕ, List, slice_index_or};
    ghost use Rattle.desk_core.specs.declared.entry.Entry.{Entry};
    ghost use Rattle.desk_core.specs.Marks.{HasMarks, IsMark, next_mark, next_shut};
    ghost use Rattle.desk_core.specs.declared.marks.Mark.{Mark};

    pub(crate) fn new() -> Marks
        ensures { HasMarks [] result.shut result.slots }
    {
        Marks {
            shut: None,
            slots: [Mark::new(); 16],
        }
    }

    /// The newest entry that shut the server down.
    pub(crate) fn shut(&self) -> Option<u32>
        ensures { result ≡ self.now.shut }
    {
        self.shut
    }

    pub(crate) fn of(&self, slot: Slot) -> Mark
        ensures { (entries : List Entry) → HasMarks entries self.now.shut self.now.slots
            → IsMark entries slot result }
    {
        self.slots[usize::from(slot.number())]
    }

    /// Takes down an entry at this place. A report is of a slot that has this rule.
    pub(crate) fn note(&mut self, call: &Call, reply: Reply, rule: Option<Rule>, at: u32)
        ensures shut { self.new.shut ≡ next_shut call.now at self.old.shut }
        ensures slots { (i : ℕ) (other : Mark) → i < 16 → slice_index_or self.new.slots i other
            ≡ next_mark i call.now reply rule at (slice_index_or self.old.slots i other) }
    {
        self.shut = shut_by(self.shut, call, at);
        for number in 0..Slot::COUNT {
            let mark = self.slots[usize::from(number)];
            self.slots[usize::from(number)] = mark.next(Slot::at(number), call, reply, rule, at);
        }
    }
}

/// The newest entry that shut the server down, behind an entry at this place.
fn shut_by(shut: Option<u32>, call: &Call, at: u32) -> Option<u32>
    ensures { result ≡ next_shut call.now at shut }
{
    match call {
        Call::Shutdown => Some(at),
        Call::Register(..) | Call::Retire(_) | Call::Observe(..) | Call::Set(..) | Call::Resume => {
            shut
        }
    }
}

/// How many fails in a row take a service of this rule down.
fn fall_of(rule: Option<Rule>) -> u32
    ensures { result ≡ fall_of rule }
{
    match rule {
        Some(Rule::Threshold(fall, _, _)) => fall,
        Some(Rule::Manual | Rule::Depends(_)) | None => 0,
    }
}
