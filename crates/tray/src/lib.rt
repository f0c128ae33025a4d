// The tray: orders as they came, without gaps.
#![tactic(auto)]

ghost use Rattle.std.specs.Prelude.{◌≡◌, ◌<◌, [], ◌∷◌, ◌++◌, length, None, MatchOption, slice_index_or};
ghost use Rattle.std.specs.List.{remove};
ghost use Rattle.desk.specs.Orders.{look_up, CanOpen, Opened, Closed};
ghost use Rattle.desk.specs.Sets.{sorted};
ghost use Rattle.tray.specs.Trays.{TraySound, PlacedAt, Joined, Parted};

use desk::{CAPACITY, Desk, Order, Refusal};
use std::marker::Model;

const BLANK: Order = Order {
    number: 0,
    node: 0,
    activity: 0,
};

// The first `len` slots hold the orders, and the others are blank. The length stands beside the slots,
// since there is no heap and a tray is copied as a whole: a vector in a fixed space is not `Copy`.
#[derive(Clone, Copy)]
pub struct Tray {
    slots: [Order; CAPACITY],
    len: usize,
}

impl Model for Tray {
    ghost use Rattle.std.specs.Prelude.{List, take};
    ghost use Rattle.desk.specs.declared.Order.{Order};
    ghost use Rattle.tray.specs.Trays.{Filled};

    // The orders as they came.
    ghost Value = { List Order };

    ghost use Rattle.tray.specs.Inside.{stored, stored_back};

    ghost view = { λ a. take a.len a.slots };

    ghost invariant = { λ a. Filled a.slots a.len };

    ghost inverse = { stored };

    ghost inverse_ok = { stored_back };
}

impl Tray {
    // A tray that is emptied already.
    pub fn new() -> Tray
        ensures sound { TraySound result }
        ensures none { sorted result ≡ [] }
    {
        Tray {
            slots: [BLANK; CAPACITY],
            len: 0,
        }
    }

    // The orders as they came. The check knows the invariant just where a field is used: to those who
    // use none, this and `place` tell that the tray is sound.
    fn arrived(&self) -> &[Order]
        ensures is { result.now ≡ self.now }
        ensures sound { TraySound self.now }
    {
        &self.slots[..self.len]
    }

    // Where the order of this number lies.
    fn place(&self, number: u32) -> Option<usize>
        ensures at { MatchOption result (look_up number self.now ≡ None) (PlacedAt number self.now) }
        ensures sound { TraySound self.now }
    {
        self.arrived()
            .iter()
            .position(|order| order.number == number)
    }

    // Puts an order behind the others.
    fn push(&mut self, order: Order)
        requires { CanOpen order self.old }
        ensures { self.new ≡ self.old ++ order ∷ [] }
    {
        self.slots[self.len] = order;
        self.len += 1;
    }

    // Takes the order at `i` out, and closes the gap.
    fn remove(&mut self, i: usize) -> Order
        requires { i < length self.old }
        ensures taken { result ≡ slice_index_or self.old i BLANK }
        ensures left { self.new ≡ remove self.old i }
    {
        let len = self.len;
        let order = std::mem::replace(&mut self.slots[i], BLANK);
        self.slots[i..len].rotate_left(1);
        self.len = len - 1;
        order
    }
}

impl Desk for Tray {
    ghost use Rattle.desk.specs.SetLaws.{ascending_sorted};
    ghost use Rattle.tray.specs.TrayLaws.{few_tray};

    ghost orders = { sorted };

    ghost sound = { TraySound };

    ghost ascending = { λ d s. ascending_sorted d s.distinct };

    ghost few = { few_tray };

    fn empty(&mut self) {
        *self = Tray::new();
    }

    #[tactic(auto, using(crate::specs::TrayLaws::calls))]
    fn open_order(&mut self, order: Order) -> Result<(), Refusal>
        ensures sound { TraySound self.new }
        ensures opened { Opened order (sorted self.old) (sorted self.new) result }
        ensures joined { Joined order self.old self.new result }
    {
        if self.len >= CAPACITY {
            return Err(Refusal::Full);
        }
        if self.look_up(order.number).is_some() {
            return Err(Refusal::AlreadyOpen);
        }
        self.push(order);
        Ok(())
    }

    #[tactic(auto, using(crate::specs::TrayLaws::calls))]
    fn close_order(&mut self, number: u32) -> Result<Order, Refusal>
        ensures sound { TraySound self.new }
        ensures closed { Closed number (sorted self.old) (sorted self.new) result }
        ensures parted { Parted number self.old self.new result }
    {
        let i = self.place(number).ok_or(Refusal::NotOpen)?;
        Ok(self.remove(i))
    }

    #[tactic(auto, using(crate::specs::TrayLaws::calls))]
    fn look_up(&self, number: u32) -> Option<Order>
        ensures { result ≡ look_up number (sorted self.now) }
    {
        Some(self.arrived()[self.place(number)?])
    }

    #[tactic(auto, using(crate::specs::TrayLaws::calls))]
    fn count(&self) -> usize
        ensures { result ≡ length (sorted self.now) }
    {
        self.arrived().len()
    }
}
