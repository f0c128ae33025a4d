// Waiting events: by kind, in a holder with 256 slots.
ghost use Rattle.std.specs.Prelude.{◌≡◌, ◌<◌, ◌≤◌, false, is_ok, if◌then◌else◌, nat_lt};
ghost use Rattle.bag.specs.Records.{put_in, head_of, tail_of};
ghost use Rattle.model.specs.Ranks.{event_before};
ghost use Rattle.bag_tests.specs.Holders.{waiting};

use bag::Bag;
use bag::record::{Ranked, Tagged};
use bag::refusal::Refusal;
use model::event::Event;

#[derive(Drop)]
pub(crate) struct Waiting {
    slots: [Event; 256],
    count: usize,
}

impl Waiting {
    fn put(&mut self, e: Event) -> Result<(), Refusal>
        ensures room { is_ok result ≡ nat_lt self.old.count 256 }
        ensures waiting { waiting self.new ≡ (if is_ok result then put_in event_before e (waiting self.old) else waiting self.old) }
        ensures unchanged { is_ok result ≡ false → self.new ≡ self.old }
        ensures fits { self.old.count ≤ 256 → self.new.count ≤ 256 }
    {
        Bag::over(&mut self.slots, &mut self.count).put(e)
    }

    fn first(&self) -> Option<Event>
        ensures { result ≡ head_of (waiting self.now) }
    {
        bag::first(&self.slots, self.count)
    }

    fn take_first(&mut self) -> Option<Event>
        ensures found { result ≡ head_of (waiting self.old) }
        ensures waiting { waiting self.new ≡ tail_of (waiting self.old) }
        ensures fits { self.old.count ≤ 256 → self.new.count ≤ 256 }
    {
        Bag::over(&mut self.slots, &mut self.count).take_first()
    }
}

#[cfg(test)]
mod tests {
    use super::*;

    #[test]
    fn holds_256(rt: HostRuntime) {
        let mut w = Waiting {
            slots: [Event::Completion(0); 256],
            count: 0,
        };
        assert!(rt; w.first().is_none());
        for _ in 0..255 {
            assert!(rt; w.put(Event::Named(1)).is_ok());
        }
        assert!(rt; w.put(Event::Completion(2)).is_ok(), "the last slot");
        // the number that is told outside
        assert!(rt; matches!(w.put(Event::Completion(3)), Err(e) if e.number() == 47));
        assert!(rt; matches!(w.first(), Some(Event::Completion(2))));
        assert!(rt; matches!(w.take_first(), Some(Event::Completion(2))));
        assert!(rt;
            w.put(Event::Termination(4)).is_ok(),
            "a slot is free again"
        );
        assert!(rt; matches!(w.take_first(), Some(Event::Termination(4))));
    }
}
