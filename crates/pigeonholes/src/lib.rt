// The pigeonholes: 64 holes, each empty or holding one order. A number is looked for from the hole
// of its remainder by 64 on, round all 64, so that a closing needs to move no other order.
#![tactic(auto)]

ghost use Rattle.std.specs.Prelude.{◌≡◌, ◌<◌, [], None, Some, MatchOption, slice_index_or, slice_set};
ghost use Rattle.desk.specs.Orders.{Opened, Closed};
ghost use Rattle.pigeonholes.specs.Holes.{held, orders_in, HolesSound, probed, Tests, First, Nowhere, Filled, Freed, is_free, holds};
ghost use Rattle.desk.specs.SetLaws.{ascending_sorted};
ghost use Rattle.pigeonholes.specs.HoleLaws.{few_held};

use desk::{CAPACITY, Desk, Order, Refusal};

// One hole: empty, or holding one order.
type Hole = Option<Order>;

// A rule of the project: a plain table of holes without an invariant, of which one is lent and changed
// when an order comes or goes. So where the holes are sound is a premise of the clauses.
#[derive(Clone, Copy)]
pub struct Pigeonholes {
    holes: [Hole; CAPACITY],
}

// The hole that is probed for the number after so many steps.
fn probed_hole(number: u32, steps: usize) -> usize
    requires { steps < 64 }
    ensures { result ≡ probed number steps }
{
    (number as usize % CAPACITY + steps) % CAPACITY
}

impl Pigeonholes {
    // Pigeonholes that are emptied already.
    pub fn new() -> Pigeonholes
        ensures sound { HolesSound result.holes }
        ensures none { orders_in result.holes ≡ [] }
    {
        Pigeonholes {
            holes: [None; CAPACITY],
        }
    }

    // The first hole that is what is sought, on the way from the number's own hole round all 64.
    fn find_hole<F: Fn(&Hole) -> bool>(&self, number: u32, sought: F) -> Option<usize>
        requires { F.IsAlwaysCallable sought }
        ensures { (p : _) → Tests F.Fn sought p → MatchOption result (Nowhere p self.now.holes) (λ i. First p number i self.now.holes) }
    {
        (0..CAPACITY)
            .map(|steps| probed_hole(number, steps))
            .find(|&i| sought(&self.holes[i]))
    }

    // The free hole for an order of this number.
    fn free_hole(&self, number: u32) -> Option<usize>
        ensures { MatchOption result (Nowhere is_free self.now.holes) (λ i. First is_free number i self.now.holes) }
    {
        self.find_hole(number, |hole| hole.is_none())
    }

    // The hole of the order of this number.
    fn hole_of(&self, number: u32) -> Option<usize>
        ensures { MatchOption result (Nowhere (holds number) self.now.holes) (λ i. First (holds number) number i self.now.holes) }
    {
        self.find_hole(number, |hole| {
            hole.is_some_and(|order| order.number == number)
        })
    }

    // Puts an order into hole `i`, which is lent for that as it is for the taking.
    fn fill(&mut self, i: usize, order: Order)
        requires { i < 64 }
        ensures { self.new.holes ≡ slice_set self.old.holes i (Some order) }
    {
        let hole = &mut self.holes[i];
        *hole = Some(order);
    }

    // Takes the order out of hole `i`, and leaves it empty.
    fn clear(&mut self, i: usize) -> Option<Order>
        requires { i < 64 }
        ensures held { result ≡ slice_index_or self.old.holes i None }
        ensures empty { self.new.holes ≡ slice_set self.old.holes i None }
    {
        self.holes[i].take()
    }
}

impl Desk for Pigeonholes {
    ghost orders = { λ p. orders_in p.holes };

    ghost sound = { λ p. HolesSound p.holes };

    ghost ascending = { λ d s. ascending_sorted (held d.holes) s.distinct };

    ghost few = { λ d s. few_held d.holes s.long };

    fn empty(&mut self) {
        self.holes = [None; CAPACITY];
    }

    #[tactic(auto, using(crate::specs::HoleLaws::holes))]
    fn open_order(&mut self, order: Order) -> Result<(), Refusal>
        ensures sound { HolesSound self.old.holes → HolesSound self.new.holes }
        ensures opened { HolesSound self.old.holes → Opened order (orders_in self.old.holes) (orders_in self.new.holes) result }
        ensures filled { Filled order self.old.holes self.new.holes result }
    {
        let i = self.free_hole(order.number).ok_or(Refusal::Full)?;
        if self.look_up(order.number).is_some() {
            return Err(Refusal::AlreadyOpen);
        }
        self.fill(i, order);
        Ok(())
    }

    #[tactic(auto, using(crate::specs::HoleLaws::holes))]
    fn close_order(&mut self, number: u32) -> Result<Order, Refusal>
        ensures sound { HolesSound self.old.holes → HolesSound self.new.holes }
        ensures closed { HolesSound self.old.holes → Closed number (orders_in self.old.holes) (orders_in self.new.holes) result }
        ensures freed { Freed number self.old.holes self.new.holes result }
    {
        let i = self.hole_of(number).ok_or(Refusal::NotOpen)?;
        self.clear(i).ok_or(Refusal::NotOpen)
    }

    #[tactic(auto, using(crate::specs::HoleLaws::holes))]
    fn look_up(&self, number: u32) -> Option<Order> {
        self.holes[self.hole_of(number)?]
    }

    #[tactic(auto, using(crate::specs::HoleLaws::holes))]
    fn count(&self) -> usize {
        // A loop, since `filter(..).count()` takes twice the time.
        let mut count = 0;
        for hole in &self.holes {
            if hole.is_some() {
                count += 1;
            }
        }
        count
    }
}
