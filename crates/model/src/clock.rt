// The clocks of a case.
ghost use Rattle.model.specs.Ranks.{clock_before, clock_tagged};
ghost use Rattle.std.proofs.Common.{rules};

use bag::record::{Ranked, Tagged};

// A clock runs until its ring is taken by a turn, and is spent from then on.
#[derive(Clone, Copy, Debug, PartialEq, Eq, PartialOrd, Ord)]
pub enum ClockState {
    Running,
    Spent,
}

// A clock of a timed edge: it stands for one of the times that the edge is relevant, and is due at its deadline.
#[derive(Clone, Copy, Debug, PartialEq, Eq)]
pub struct Clock {
    pub edge: u8,
    pub state: ClockState,
    pub deadline: u32,
}

// What clocks are counted and taken by.
#[derive(Clone, Copy, Debug, PartialEq, Eq)]
pub struct ClockTag {
    pub edge: u8,
    pub state: ClockState,
}

// Running clocks leave before spent ones, and the earlier deadline first.
impl Ranked for Clock {
    ghost before = { clock_before };

    ghost asymmetric = { Prim.search rules };

    ghost transitive = { Prim.search rules };

    fn ranks_before(&self, other: &Clock) -> bool {
        // By numbers: a bag asks this of each clock that it passes, and the order of a pair takes twice the time.
        let (own, others) = (self.state as u8, other.state as u8);
        own < others || (own == others && self.deadline < other.deadline)
    }
}

impl Tagged for Clock {
    type Tag = ClockTag;

    ghost tagged = { clock_tagged };

    fn has_tag(&self, tag: ClockTag) -> bool {
        self.edge == tag.edge && self.state == tag.state
    }
}
