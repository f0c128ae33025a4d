// Clocks: running before spent, by deadline, in a holder with 1,024 slots.
ghost use Rattle.std.specs.Prelude.{◌≡◌, true, is_ok, if◌then◌else◌, count_by, nat_lt};
ghost use Rattle.bag.specs.Records.{put_in, head_of, tail_of, first_with, without_first, in_order};
ghost use Rattle.model.specs.Ranks.{clock_before, clock_tagged};
ghost use Rattle.bag_tests.specs.Holders.{clocks_in};

use bag::Bag;
use bag::record::{Ranked, Tagged};
use bag::refusal::Refusal;
use model::clock::{Clock, ClockTag};

#[derive(Drop)]
pub(crate) struct Clocks {
    slots: [Clock; 1024],
    count: usize,
}

impl Clocks {
    fn start(&mut self, c: Clock) -> Result<(), Refusal>
        ensures room { is_ok result ≡ nat_lt self.old.count 1024 }
        ensures clocks { clocks_in self.new ≡ (if is_ok result then put_in clock_before c (clocks_in self.old) else clocks_in self.old) }
        ensures ordered { in_order clock_before (clocks_in self.old) ≡ true → in_order clock_before (clocks_in self.new) ≡ true }
    {
        Bag::over(&mut self.slots, &mut self.count).put(c)
    }

    fn take_first(&mut self) -> Option<Clock>
        ensures found { result ≡ head_of (clocks_in self.old) }
        ensures clocks { clocks_in self.new ≡ tail_of (clocks_in self.old) }
    {
        Bag::over(&mut self.slots, &mut self.count).take_first()
    }

    fn count_of(&self, tag: ClockTag) -> usize
        ensures { result ≡ count_by (clock_tagged tag) (clocks_in self.now) }
    {
        bag::count_tag(&self.slots, self.count, tag)
    }

    fn stop(&mut self, tag: ClockTag) -> Option<Clock>
        ensures found { result ≡ first_with (clock_tagged tag) (clocks_in self.old) }
        ensures clocks { clocks_in self.new ≡ without_first (clock_tagged tag) (clocks_in self.old) }
    {
        Bag::over(&mut self.slots, &mut self.count).take_tag(tag)
    }
}

#[cfg(test)]
mod tests {
    use super::*;
    use model::clock::ClockState;

    fn clock(edge: u8, state: ClockState, deadline: u32) -> Clock {
        Clock {
            edge,
            state,
            deadline,
        }
    }

    #[test]
    fn by_state_and_deadline(rt: HostRuntime) {
        let mut w = Clocks {
            slots: [clock(0, ClockState::Spent, 0); 1024],
            count: 0,
        };
        let puts = [
            clock(1, ClockState::Running, 120),
            clock(2, ClockState::Running, 130),
            clock(3, ClockState::Spent, 100),
            clock(4, ClockState::Running, 114),
            clock(2, ClockState::Running, 114),
        ];
        for c in puts {
            assert!(rt; w.start(c).is_ok());
        }
        let two = ClockTag {
            edge: 2,
            state: ClockState::Running,
        };
        assert!(rt; w.count_of(two) == 2);
        assert!(rt; matches!(w.stop(two), Some(c) if c.deadline == 114));
        assert!(rt; w.count_of(two) == 1);
        for edge in [4, 1, 2, 3] {
            assert!(rt; matches!(w.take_first(), Some(c) if c.edge == edge));
        }
        assert!(rt; w.stop(two).is_none());
        for _ in 0..1024 {
            assert!(rt; w.start(clock(1, ClockState::Running, 1)).is_ok());
        }
        assert!(rt; w.start(clock(1, ClockState::Running, 0)).is_err());
    }
}
