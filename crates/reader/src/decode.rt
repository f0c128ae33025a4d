// How each part of a chart is read.
ghost use Rattle.std.specs.Prelude.{◌≡◌, ℕ, ◌<◌, List};
ghost use Rattle.reader.specs.Walk.{Reads};
ghost use Rattle.layout.specs.declared.refusal.Fault.TheVariants.{Field};
ghost use Rattle.layout.specs.Reader.{Out, byte as byte_at, number as number_at, ranged as ranged_at, maybe, stands, set as set_at, node as node_at, edge as edge_at, condition as condition_at, condition_of, guard as guard_at};

use super::cursor::Cursor;
use layout::parts::{Condition, Guard, Node, NodeSet, RawEdge};
use layout::refusal::{Fault, Refusal};

// A number as it stands in the bytes.
pub(crate) trait Number: Copy + Into<u32> {
    ghost value_of: { Self → ℕ };

    ghost number_at: { List ℕ → ℕ → Out Self };

    fn next(cursor: &mut Cursor<'_>) -> Result<Self, Refusal>
        ensures { Reads number_at cursor.old cursor.new result };

    // the number that it is as a u32
    ghost tells: { (v : Self) (n : ℕ) → Self.Into.converts v n → n ≡ value_of v };
}

impl Number for u8 {
    ghost value_of = { λ v. v };

    ghost number_at = { byte_at };

    fn next(cursor: &mut Cursor<'_>) -> Result<u8, Refusal> {
        cursor.byte()
    }

    ghost tells = { λ v n h. h };
}

impl Number for u32 {
    ghost value_of = { λ v. v };

    ghost number_at = { number_at };

    fn next(cursor: &mut Cursor<'_>) -> Result<u32, Refusal> {
        cursor.number()
    }

    ghost tells = { λ v n h. h };
}

// A number from `low` to `high`; any other is refused at its first byte.
pub(crate) fn ranged<T: Number>(
    cursor: &mut Cursor<'_>,
    fault: Fault,
    low: u32,
    high: u32,
) -> Result<T, Refusal>
    ensures { Reads (ranged_at fault T.value_of T.number_at low high) cursor.old cursor.new result }
{
    let place = cursor.place;
    let number = T::next(cursor)?;
    if (low..=high).contains(&number.into()) {
        Ok(number)
    } else {
        Err(fault.at(place))
    }
}

// A part of a chart that is read within some limits: a number from the first to the second, or what names nodes in a
// chart of so many. The limits of a number are a pair: what a range made by `..=` holds is told by an equation, and the
// proof of a read stops at it.
pub(crate) trait Decode {
    type Limits: Copy;

    ghost part_at: { Self.Limits → List ℕ → ℕ → Out Self };

    fn decode(cursor: &mut Cursor<'_>, limits: Self::Limits) -> Result<Self, Refusal>
        ensures { Reads (part_at limits) cursor.old cursor.new result };
}

// A number is read within a range, from the first limit to the second.
impl<T: Number> Decode for T {
    type Limits = (u32, u32);

    ghost part_at = { λ l. ranged_at Field T.value_of T.number_at l.0 l.1 };

    fn decode(cursor: &mut Cursor<'_>, limits: (u32, u32)) -> Result<T, Refusal> {
        let (low, high) = limits;
        ranged(cursor, Fault::Field, low, high)
    }
}

// A set of one to four of the chart's nodes.
impl Decode for NodeSet {
    type Limits = u8;

    ghost part_at = { set_at };

    fn decode(cursor: &mut Cursor<'_>, nodes: u8) -> Result<NodeSet, Refusal> {
        let place = cursor.place;
        let set = NodeSet {
            bits: cursor.number()?,
        };
        if set.fits(nodes.into()) {
            Ok(set)
        } else {
            Err(Fault::Field.at(place))
        }
    }
}

// A condition, judged once its six bytes are read.
impl Decode for Condition {
    type Limits = u8;

    ghost part_at = { condition_at };

    fn decode(cursor: &mut Cursor<'_>, nodes: u8) -> Result<Condition, Refusal> {
        let place = cursor.place;
        let kind = cursor.byte()?;
        let subject = cursor.byte()?;
        let constant = cursor.number()?;
        condition_of(kind, subject, constant)
            .filter(|condition| condition.fits(nodes.into()))
            .ok_or(Fault::Field.at(place))
    }
}

// The condition that a kind, a subject and a constant are; the last two kinds have no constant. The numbers of the kinds
// are the bytes' own, written by the encoder: `as` gives no number of an enum whose variants have fields.
fn condition_of(kind: u8, subject: u8, constant: u32) -> Option<Condition>
    ensures { result ≡ condition_of kind subject constant }
{
    match kind {
        0 => Some(Condition::Equal {
            attribute: subject,
            constant,
        }),
        1 => Some(Condition::AtLeast {
            attribute: subject,
            constant,
        }),
        2 => Some(Condition::LessThan {
            attribute: subject,
            constant,
        }),
        3 if constant == 0 => Some(Condition::Absent { attribute: subject }),
        4 if constant == 0 => Some(Condition::HoldsToken { node: subject }),
        _ => None,
    }
}

impl Decode for Guard {
    type Limits = u8;

    ghost part_at = { guard_at };

    fn decode(cursor: &mut Cursor<'_>, nodes: u8) -> Result<Guard, Refusal> {
        let count = u8::decode(cursor, (1, 4))?;
        let mut next = || Condition::decode(cursor, nodes);
        match count {
            1 => Ok(Guard::One(next()?)),
            2 => Ok(Guard::Two(next()?, next()?)),
            3 => Ok(Guard::Three(next()?, next()?, next()?)),
            _ => Ok(Guard::Four(next()?, next()?, next()?, next()?)),
        }
    }
}

// A part where its bit in the map stands. Not by `then` and `transpose`: what a closure leaves behind in the cursor that
// it borrows, `then` does not tell.
fn optional<T: Decode>(
    cursor: &mut Cursor<'_>,
    map: u8,
    bit: u8,
    limits: T::Limits,
) -> Result<Option<T>, Refusal>
    requires { bit < 8 }
    ensures { Reads (maybe (stands map bit) (T.part_at limits)) cursor.old cursor.new result }
{
    if (map >> bit) % 2 == 1 {
        Ok(Some(T::decode(cursor, limits)?))
    } else {
        Ok(None)
    }
}

impl Decode for Node {
    type Limits = ();

    ghost part_at = { λ _. node_at };

    fn decode(cursor: &mut Cursor<'_>, _limits: ()) -> Result<Node, Refusal> {
        let map: u8 = ranged(cursor, Fault::Map, 0, 1)?;
        let activity = optional(cursor, map, 0, (0, 63))?;
        Ok(Node { activity })
    }
}

// Sources and targets always stand.
impl Decode for RawEdge {
    type Limits = u8;

    ghost part_at = { edge_at };

    fn decode(cursor: &mut Cursor<'_>, nodes: u8) -> Result<RawEdge, Refusal> {
        let map: u8 = ranged(cursor, Fault::Map, 0b0110_0000, 0b0111_1111)?;
        let trigger = optional(cursor, map, 0, (0, 31))?;
        let after = optional(cursor, map, 1, (1, 100_000_000))?;
        let when = optional(cursor, map, 2, (0, 4_000_000_000))?;
        let guard = optional(cursor, map, 3, nodes)?;
        let send = optional(cursor, map, 4, (0, 31))?;
        let sources = NodeSet::decode(cursor, nodes)?;
        let targets = NodeSet::decode(cursor, nodes)?;
        Ok(RawEdge {
            trigger,
            after,
            when,
            guard,
            send,
            sources,
            targets,
        })
    }
}
