// Calls that serve every desk, proved from the promises of `Desk` alone.
ghost use Rattle.std.specs.Prelude.{◌≡◌, if◌then◌else◌};
ghost use Rattle.desk.specs.Orders.{Opened};
ghost use Rattle.desk.specs.Calls.{numbered, AllBelow, OpenedLast, CameBack, Transferred};

use crate::{Desk, Order, Refusal};

// Whether an order of this number is open: just one is, or none.
#[tactic(auto, using(crate::proofs::CallLaws::numbered_is))]
pub fn is_open<D: Desk>(desk: &D, number: u32) -> bool
    ensures { D.sound desk.now → numbered number (D.orders desk.now) ≡ (if result then 1 else 0) }
{
    desk.look_up(number).is_some()
}

// Opens an order. One numbered above all others comes last, and is refused only where 64 are open.
#[tactic(auto, using(crate::proofs::CallLaws::last_opened))]
pub fn open_last<D: Desk>(desk: &mut D, order: Order) -> Result<(), Refusal>
    ensures sound { D.sound desk.old → D.sound desk.new }
    ensures opened { D.sound desk.old → Opened order (D.orders desk.old) (D.orders desk.new) result }
    ensures last { D.sound desk.old → AllBelow order.number (D.orders desk.old) → OpenedLast order (D.orders desk.old) (D.orders desk.new) result }
{
    desk.open_order(order)
}

// Opens an order and closes it again, to see whether it can be opened. The desk is left as it was.
#[tactic(auto, using(crate::proofs::CallLaws::opened_then_closed))]
pub fn open_and_close<D: Desk>(desk: &mut D, order: Order) -> Result<Order, Refusal>
    ensures sound { D.sound desk.old → D.sound desk.new }
    ensures back { D.sound desk.old → CameBack order (D.orders desk.old) (D.orders desk.new) result }
{
    desk.open_order(order)?;
    desk.close_order(order.number)
}

// Moves an order to another desk. Refused where it is not open (43), then as its opening there.
#[tactic(auto, using(crate::proofs::CallLaws::moved_over))]
pub fn transfer<D: Desk, E: Desk>(
    source: &mut D,
    target: &mut E,
    number: u32,
) -> Result<Order, Refusal>
    ensures source { D.Desk.sound source.old → D.Desk.sound source.new }
    ensures target { E.Desk.sound target.old → E.Desk.sound target.new }
    ensures moved { D.Desk.sound source.old → E.Desk.sound target.old → Transferred number (D.Desk.orders source.old) (E.Desk.orders target.old) (D.Desk.orders source.new) (E.Desk.orders target.new) result }
{
    let order = source.look_up(number).ok_or(Refusal::NotOpen)?;
    target.open_order(order)?;
    source.close_order(number)
}
