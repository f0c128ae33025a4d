// One table of calls and answers, which each kind of desk must meet.
#![tactic(auto)]

ghost use Rattle.std.specs.Prelude.{◌≡◌};

use desk::split::Split;
use desk::{Desk, Order, Refusal};
use pigeonholes::Pigeonholes;
use tray::Tray;

#[derive(Clone, Copy)]
enum Call {
    Empty,
    // An order: number, node, activity.
    Open(u32, u8, u8),
    // So many orders under numbers that follow one another, of activities 0 to 19 in turn.
    OpenRun(u32, u32),
    Close(u32),
    LookUp(u32),
    Count,
}

#[derive(Clone, Copy, PartialEq, Eq, Debug)]
enum Answer {
    Done,
    // The node and the activity of the order, if there is one.
    Found(Option<(u8, u8)>),
    Number(usize),
}

use Answer::*;
use Call::*;
use Refusal::*;

fn node_and_activity(order: Order) -> (u8, u8) {
    (order.node, order.activity)
}

fn open_run<D: Desk>(desk: &mut D, first: u32, count: u32) -> Result<(), Refusal> {
    for k in 0..count {
        desk.open_order(Order {
            number: first.wrapping_add(k),
            node: 0,
            activity: (k % 20) as u8,
        })?;
    }
    Ok(())
}

fn make_call<D: Desk>(desk: &mut D, call: Call) -> Result<Answer, Refusal> {
    match call {
        Empty => {
            desk.empty();
            Ok(Done)
        }
        Open(number, node, activity) => {
            desk.open_order(Order {
                number,
                node,
                activity,
            })?;
            Ok(Done)
        }
        OpenRun(first, count) => {
            open_run(desk, first, count)?;
            Ok(Done)
        }
        Close(number) => {
            let order = desk.close_order(number)?;
            Ok(Found(Some(node_and_activity(order))))
        }
        LookUp(number) => Ok(Found(desk.look_up(number).map(node_and_activity))),
        Count => Ok(Number(desk.count())),
    }
}

// New desks hold nothing, and what `new` promises is what the promises of `Desk` start from.
fn new_counts() -> (usize, usize, usize)
    ensures { result ≡ (0, 0, 0) }
{
    let pigeonholes = Pigeonholes::new();
    let tray = Tray::new();
    let split = Split::new(Tray::new(), Pigeonholes::new(), 10);
    (pigeonholes.count(), tray.count(), split.count())
}

#[cfg(test)]
mod tests {
    use super::*;
    use std::test::Fail;

    // The split desks are divided at activity 10.
    const TABLE: [(Call, Result<Answer, Refusal>); 37] = [
        (Empty, Ok(Done)),
        (Count, Ok(Number(0))),
        (LookUp(0), Ok(Found(None))),
        (Close(0), Err(NotOpen)),
        // Three numbers of remainder 63: for the later two the holes are probed round to the first.
        (Open(63, 1, 9), Ok(Done)),
        (Open(127, 2, 10), Ok(Done)),
        (Open(191, 3, 0), Ok(Done)),
        (LookUp(63), Ok(Found(Some((1, 9))))),
        (LookUp(127), Ok(Found(Some((2, 10))))),
        (LookUp(191), Ok(Found(Some((3, 0))))),
        (Count, Ok(Number(3))),
        // A number that is open, on either side of the bound.
        (Open(63, 4, 9), Err(AlreadyOpen)),
        (Open(63, 4, 10), Err(AlreadyOpen)),
        (Open(127, 4, 9), Err(AlreadyOpen)),
        (LookUp(63), Ok(Found(Some((1, 9))))),
        (Count, Ok(Number(3))),
        // A closing leaves the others to be found, and takes its order out once.
        (Close(127), Ok(Found(Some((2, 10))))),
        (Close(127), Err(NotOpen)),
        (LookUp(127), Ok(Found(None))),
        (LookUp(191), Ok(Found(Some((3, 0))))),
        (Open(0, 5, 63), Ok(Done)),
        (Open(4294967295, 6, 255), Ok(Done)),
        (LookUp(4294967295), Ok(Found(Some((6, 255))))),
        (Count, Ok(Number(4))),
        // 64 are open: that is told first, even of a number that is open.
        (OpenRun(1000, 59), Ok(Done)),
        (Count, Ok(Number(63))),
        (Open(2000, 7, 10), Ok(Done)),
        (Open(2001, 7, 9), Err(Full)),
        (Open(2001, 7, 10), Err(Full)),
        (Open(63, 7, 9), Err(Full)),
        (Count, Ok(Number(64))),
        (Close(0), Ok(Found(Some((5, 63))))),
        (Open(2001, 8, 9), Ok(Done)),
        (LookUp(2001), Ok(Found(Some((8, 9))))),
        (LookUp(1058), Ok(Found(Some((0, 18))))),
        (Empty, Ok(Done)),
        (LookUp(191), Ok(Found(None))),
    ];

    fn meets_the_table<D: Desk>(desk: &mut D) -> Result<(), Fail> {
        for (call, expected) in &TABLE {
            let answer = make_call(desk, *call);
            if answer != *expected {
                return Err(Fail::new(format_args!("{answer:?} in place of {expected:?}")));
            }
        }
        Ok(())
    }

    #[test]
    fn pigeonholes() -> Result<(), Fail> {
        meets_the_table(&mut Pigeonholes::new())
    }

    #[test]
    fn tray() -> Result<(), Fail> {
        meets_the_table(&mut Tray::new())
    }

    #[test]
    fn split() -> Result<(), Fail> {
        meets_the_table(&mut Split::new(Pigeonholes::new(), Tray::new(), 10))
    }

    #[test]
    fn split_of_splits() -> Result<(), Fail> {
        let low = Split::new(Tray::new(), Pigeonholes::new(), 5);
        let high = Split::new(Pigeonholes::new(), Tray::new(), 100);
        meets_the_table(&mut Split::new(low, high, 10))
    }

    #[test]
    fn refusals_are_told_by_number(rt: HostRuntime) {
        assert_eq!(rt; Full.number(), 41);
        assert_eq!(rt; AlreadyOpen.number(), 42);
        assert_eq!(rt; NotOpen.number(), 43);
    }

    #[test]
    fn new_desks(rt: HostRuntime) {
        assert_eq!(rt; new_counts(), (0, 0, 0));
    }
}
