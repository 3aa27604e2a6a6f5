// The week plan: rules, their refusals, and the answer for a super frame. 02, S-12.
#![tactic(auto)]

pub mod answers;
pub mod marks;
pub mod numbered;
pub mod refusals;
pub mod rules;
pub mod theorems;

ghost use Rattle.std.specs.Prelude.{◌≡◌};
ghost use Rattle.plan.specs.Answers.{ordered, mark_number};
ghost use Rattle.plan.specs.Rules.{has};

use crate::rules::WEEK_MINUTES;
use settings::Settings;

// A rule of a plan: its first minute, the minute after its last, and its settings.
#[derive(Clone, Copy)]
pub struct Rule {
    pub first: u16,
    pub after: u16,
    pub settings: Settings,
}

impl Rule {
    // Whether the rule has a minute: those from its first to the one before its `after`.
    #[tactic(auto, unfolding(crate::specs::Rules::has))]
    fn has(self, minute: u16) -> bool
        ensures { result ≡ has self minute }
    {
        self.first <= minute && minute < self.after
    }

    // Whether the rule is neither empty nor reversed and has no minute above 10,080.
    #[tactic(auto, unfolding(crate::specs::Answers::ordered))]
    fn is_ordered(self) -> bool
        ensures { result ≡ ordered self }
    {
        self.first < self.after && self.after <= WEEK_MINUTES
    }
}

// The rules that have a minute: how many, and the first one's place in the list.
#[derive(Clone, Copy)]
pub struct Found {
    pub count: usize,
    pub place: usize,
}

// What a super frame is beside unequal settings.
#[derive(Clone, Copy, Debug, PartialEq, Eq)]
pub enum Mark {
    // Neither of the two below.
    Other = 0,
    // One of the last two before unequal settings.
    Closing = 1,
    // The first with unequal settings.
    First = 2,
}

impl Mark {
    // The number by which a caller in C knows a mark.
    fn number(self) -> u8
        ensures { result ≡ mark_number self }
    {
        self as u8
    }
}

// The answer for a super frame: the rule's place and the mark.
#[derive(Clone, Copy)]
pub struct Answer {
    pub place: u8,
    pub mark: Mark,
}
