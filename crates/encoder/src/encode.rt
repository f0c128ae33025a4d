// The bytes of each part of a chart.
ghost use Rattle.std.specs.Prelude.{◌≡◌, ℕ, List, ◌∷◌, ◌++◌, ◌<◌, length, OnOk};
ghost use Rattle.std.specs.List.{flat_map};
ghost use Rattle.layout.specs.Layout.{one, wide, flag as flag_of, optional, node_bytes, condition_bytes, guard_bytes, edge_bytes, edge_map_of};

use layout::parts::{Condition, Guard, Node, NodeSet, RawEdge};
use std::alloc::AllocError;

// A part of a chart, and the bytes that it is written as.
pub(crate) trait Encode {
    ghost bytes: { Self → List ℕ };

    // Writes the bytes behind those that are there.
    fn put(&self, out: &mut Vec<u8>) -> Result<(), AllocError>
        ensures { OnOk result (out.new.items ≡ out.old.items ++ bytes self.now) };
}

impl Encode for u8 {
    ghost bytes = { one };

    fn put(&self, out: &mut Vec<u8>) -> Result<(), AllocError> {
        out.push(*self)?;
        Ok(())
    }
}

// Four bytes, the highest first.
impl Encode for u32 {
    ghost bytes = { wide };

    fn put(&self, out: &mut Vec<u8>) -> Result<(), AllocError> {
        out.extend_from_slice(&self.to_be_bytes())
    }
}

impl<T: Encode> Encode for Option<T> {
    ghost bytes = { optional T.bytes };

    fn put(&self, out: &mut Vec<u8>) -> Result<(), AllocError> {
        match self {
            Some(part) => part.put(out),
            None => Ok(()),
        }
    }
}

impl<T: Encode> Encode for &[T] {
    ghost bytes = { λ s. flat_map T.bytes s.now };

    fn put(&self, out: &mut Vec<u8>) -> Result<(), AllocError> {
        for part in *self {
            part.put(out)?;
        }
        Ok(())
    }
}

impl Encode for Node {
    ghost bytes = { node_bytes };

    fn put(&self, out: &mut Vec<u8>) -> Result<(), AllocError> {
        flag(&self.activity).put(out)?;
        self.activity.put(out)
    }
}

// A map's bit for a field.
fn flag<T>(field: &Option<T>) -> u8
    ensures { result ≡ flag_of field.now }
{
    u8::from(field.is_some())
}

impl Encode for NodeSet {
    ghost bytes = { λ s. wide s.bits };

    fn put(&self, out: &mut Vec<u8>) -> Result<(), AllocError> {
        self.bits.put(out)
    }
}

// The numbers of the kinds are the bytes' own, read by the reader: `as` gives no number of an enum whose variants have
// fields.
impl Encode for Condition {
    ghost bytes = { condition_bytes };

    fn put(&self, out: &mut Vec<u8>) -> Result<(), AllocError> {
        let (kind, subject, constant) = match *self {
            Condition::Equal {
                attribute,
                constant,
            } => (0u8, attribute, constant),
            Condition::AtLeast {
                attribute,
                constant,
            } => (1, attribute, constant),
            Condition::LessThan {
                attribute,
                constant,
            } => (2, attribute, constant),
            Condition::Absent { attribute } => (3, attribute, 0),
            Condition::HoldsToken { node } => (4, node, 0),
        };
        kind.put(out)?;
        subject.put(out)?;
        constant.put(out)
    }
}

impl Encode for Guard {
    ghost bytes = { guard_bytes };

    fn put(&self, out: &mut Vec<u8>) -> Result<(), AllocError> {
        match *self {
            Guard::One(a) => put_counted(&[a], out),
            Guard::Two(a, b) => put_counted(&[a, b], out),
            Guard::Three(a, b, c) => put_counted(&[a, b, c], out),
            Guard::Four(a, b, c, d) => put_counted(&[a, b, c, d], out),
        }
    }
}

// How many conditions there are, and each of them.
fn put_counted(conditions: &[Condition], out: &mut Vec<u8>) -> Result<(), AllocError>
    requires { length conditions.now < 256 }
    ensures { OnOk result (out.new.items ≡ out.old.items ++ length conditions.now ∷ flat_map condition_bytes conditions.now) }
{
    (conditions.len() as u8).put(out)?;
    conditions.put(out)
}

impl Encode for RawEdge {
    ghost bytes = { edge_bytes };

    fn put(&self, out: &mut Vec<u8>) -> Result<(), AllocError> {
        edge_map(self).put(out)?;
        self.trigger.put(out)?;
        self.after.put(out)?;
        self.when.put(out)?;
        self.guard.put(out)?;
        self.send.put(out)?;
        self.sources.put(out)?;
        self.targets.put(out)
    }
}

// Sources and targets always stand.
fn edge_map(edge: &RawEdge) -> u8
    ensures { result ≡ edge_map_of edge.now }
{
    flag(&edge.trigger)
        + 2 * flag(&edge.after)
        + 4 * flag(&edge.when)
        + 8 * flag(&edge.guard)
        + 16 * flag(&edge.send)
        + 32
        + 64
}
