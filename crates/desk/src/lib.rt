// Desks: where the open orders of a case lie.
#![tactic(auto)]

ghost use Rattle.std.specs.Prelude.{◌≡◌, ◌≤◌, List, [], length};
ghost use Rattle.desk.specs.declared.Order.{Order};
ghost use Rattle.desk.specs.Orders.{refusal_number, look_up, Ascending, Opened, Closed};

pub mod calls;
pub mod split;

// How many orders may be open on one desk.
pub const CAPACITY: usize = 64;

// Work given out: the activity to be done, for the node that asked for it. The number is any u32.
#[derive(Clone, Copy, PartialEq, Eq, Debug)]
pub struct Order {
    pub number: u32,
    pub node: u8,
    pub activity: u8,
}

// Why a desk refuses a call, and the number under which that is told.
#[derive(Clone, Copy, PartialEq, Eq, Debug)]
pub enum Refusal {
    // 64 orders are open.
    Full = 41,
    // An order of this number is open.
    AlreadyOpen = 42,
    // No order of this number is open.
    NotOpen = 43,
}

impl Refusal {
    // The number under which the refusal is told.
    pub fn number(self) -> u8
        ensures { result ≡ refusal_number self }
    {
        self as u8
    }
}

// A desk means the set of its open orders. From the first emptying on each call has its full
// meaning; before that a call is safe and ends. A refused call changes nothing.
pub trait Desk {
    // The open orders, by rising number.
    ghost orders: { Self → List Order };

    // The desk was emptied at least once, and is in order since.
    ghost sound: { Self → Type 0 };

    // Takes all orders out.
    fn empty(&mut self)
        ensures sound { sound self.new }
        ensures none { orders self.new ≡ [] };

    // Adds an order. Refused where 64 are open (41), then where its number is open (42).
    fn open_order(&mut self, order: Order) -> Result<(), Refusal>
        ensures sound { sound self.old → sound self.new }
        ensures opened { sound self.old → Opened order (orders self.old) (orders self.new) result };

    // Takes just this order out and answers it. Refused where it is not open (43).
    fn close_order(&mut self, number: u32) -> Result<Order, Refusal>
        ensures sound { sound self.old → sound self.new }
        ensures closed { sound self.old → Closed number (orders self.old) (orders self.new) result };

    // The open order of this number.
    fn look_up(&self, number: u32) -> Option<Order>
        ensures { sound self.now → result ≡ look_up number (orders self.now) };

    // How many orders are open.
    fn count(&self) -> usize
        ensures { sound self.now → result ≡ length (orders self.now) };

    ghost ascending: { (d : Self) → sound d → Ascending (orders d) };

    ghost few: { (d : Self) → sound d → length (orders d) ≤ 64 };
}
