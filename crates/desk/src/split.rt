// A split desk: made of any two desks. Orders of activities below a bound lie on the first, the
// others on the second, and it is a desk with the orders of both.
ghost use Rattle.std.specs.Prelude.{◌≡◌, []};
ghost use Rattle.desk.specs.Orders.{Opened, Closed};
ghost use Rattle.desk.specs.Splits.{together, SplitSound};
ghost use Rattle.desk.specs.SplitLaws.{ascending_union};
ghost use Rattle.desk.specs.SetLaws.{few_union};

use crate::{CAPACITY, Desk, Order, Refusal};

// That both are sound is a premise of the clauses. As a ghost field the check refuses it: nothing says
// that the `sound` of any desk has one proof at most.
#[derive(Drop)]
pub struct Split<F, S> {
    first: F,
    second: S,
    bound: u8,
}

impl<F: Desk, S: Desk> Split<F, S> {
    // Both desks are emptied first.
    pub fn new(first: F, second: S, bound: u8) -> Split<F, S>
        ensures sound { SplitSound F.Desk S.Desk result }
        ensures none { together F.Desk S.Desk result ≡ [] }
        ensures bound { result.bound ≡ bound }
    {
        let mut split = Split {
            first,
            second,
            bound,
        };
        split.empty();
        split
    }
}

impl<F: Desk, S: Desk> Desk for Split<F, S> {
    ghost orders = { together F.Desk S.Desk };

    ghost sound = { SplitSound F.Desk S.Desk };

    ghost ascending = { λ d s. ascending_union _ _ s.disjoint (F.Desk.ascending d.first s.first) (S.Desk.ascending d.second s.second) };

    ghost few = { λ d s. few_union (F.Desk.orders d.first) (S.Desk.orders d.second) s.few };

    fn empty(&mut self)
        ensures sound { SplitSound F.Desk S.Desk self.new }
        ensures none { together F.Desk S.Desk self.new ≡ [] }
        ensures bound { self.new.bound ≡ self.old.bound }
    {
        self.first.empty();
        self.second.empty();
    }

    #[tactic(auto, using(crate::specs::SplitLaws::opened_on_one))]
    fn open_order(&mut self, order: Order) -> Result<(), Refusal>
        ensures sound { SplitSound F.Desk S.Desk self.old → SplitSound F.Desk S.Desk self.new }
        ensures opened { SplitSound F.Desk S.Desk self.old → Opened order (together F.Desk S.Desk self.old) (together F.Desk S.Desk self.new) result }
        ensures bound { self.new.bound ≡ self.old.bound }
    {
        if self.count() >= CAPACITY {
            return Err(Refusal::Full);
        }
        if self.look_up(order.number).is_some() {
            return Err(Refusal::AlreadyOpen);
        }
        if order.activity < self.bound {
            self.first.open_order(order)
        } else {
            self.second.open_order(order)
        }
    }

    #[tactic(auto, using(crate::specs::SplitLaws::closed_on_one))]
    fn close_order(&mut self, number: u32) -> Result<Order, Refusal>
        ensures sound { SplitSound F.Desk S.Desk self.old → SplitSound F.Desk S.Desk self.new }
        ensures closed { SplitSound F.Desk S.Desk self.old → Closed number (together F.Desk S.Desk self.old) (together F.Desk S.Desk self.new) result }
        ensures bound { self.new.bound ≡ self.old.bound }
    {
        // No `or_else`: it would lend the second desk to a closure, and of what that desk holds
        // after an `Ok` the check then knows nothing.
        match self.first.close_order(number) {
            Ok(order) => Ok(order),
            Err(_) => self.second.close_order(number),
        }
    }

    #[tactic(auto, using(crate::specs::SetLaws::absent_union, crate::specs::SplitLaws::present_union))]
    fn look_up(&self, number: u32) -> Option<Order> {
        self.first
            .look_up(number)
            .or_else(|| self.second.look_up(number))
    }

    // Before the first emptying the two counts may be any.
    #[tactic(auto, using(crate::specs::SetLaws::length_union))]
    fn count(&self) -> usize {
        self.first.count().saturating_add(self.second.count())
    }
}
