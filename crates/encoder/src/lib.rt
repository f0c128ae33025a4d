// Writes a chart: its nodes and edges to bytes.
#![tactic(auto)]

ghost use Rattle.std.specs.Prelude.{◌≡◌};
ghost use Rattle.encoder.specs.Writer.{Writes};
ghost use Rattle.encoder.specs.declared.WriteError.TheVariants.{Memory};

mod encode;

use encode::Encode;
use layout::parts::{Node, RawEdge};
use std::alloc::{AllocError, Global};

// What writing can end with in place of the bytes.
#[derive(Clone, Copy)]
pub enum WriteError {
    // there are more nodes or edges than a byte can count
    TooMany,
    // there is no memory for the bytes
    Memory,
}

impl From<AllocError> for WriteError {
    ghost from_gives = { λ _ r. r ≡ Memory };

    fn from(_e: AllocError) -> WriteError {
        WriteError::Memory
    }
}

// The bytes of a chart with these nodes and edges.
pub fn write(heap: Global, nodes: &[Node], edges: &[RawEdge]) -> Result<Vec<u8>, WriteError>
    ensures { Writes nodes.now edges.now result }
{
    let (Ok(node_count), Ok(edge_count)) = (u8::try_from(nodes.len()), u8::try_from(edges.len()))
    else {
        return Err(WriteError::TooMany);
    };
    let mut out = Vec::new(heap);
    node_count.put(&mut out)?;
    edge_count.put(&mut out)?;
    nodes.put(&mut out)?;
    edges.put(&mut out)?;
    Ok(out)
}
