// Reads the records of a whole chart.
ghost use Rattle.layout.specs.First.{First};
ghost use Rattle.layout.specs.Law.{Exactly, Lawful, Parted};
ghost use Rattle.reader.specs.Walk.{Walks};

use super::cursor::Cursor;
use super::decode::ranged;
use super::records::all_parsed;
use layout::chart::RawChart;
use layout::refusal::{Fault, ReadError};
use std::alloc::Global;

// Reads the records that the bytes are, or says what is wrong with the bytes first, and where.
#[tactic(auto, using(crate::proofs::Lawful::exactly, crate::proofs::Lawful::lawful, crate::proofs::Lawful::parted, crate::proofs::Lawful::first))]
pub fn read(heap: Global, bytes: &[u8]) -> Result<RawChart<'_>, ReadError>
    ensures exact { Exactly bytes.now result }
    ensures law { Lawful bytes.now result }
    ensures parted { Parted result }
    ensures first { First bytes.now result }
{
    walk(heap, bytes)
}

fn walk(heap: Global, bytes: &[u8]) -> Result<RawChart<'_>, ReadError>
    ensures { Walks bytes.now result }
{
    let mut cursor = Cursor::new(bytes);
    let node_count = ranged(&mut cursor, Fault::Count, 2, 32)?;
    let edge_count = ranged(&mut cursor, Fault::Count, 1, 64)?;
    let nodes = all_parsed(heap, &mut cursor, (), node_count)?;
    let edges = all_parsed(heap, &mut cursor, node_count, edge_count)?;
    if cursor.place < bytes.len() {
        return Err(Fault::Left.at(cursor.place).into());
    }
    Ok(RawChart { nodes, edges })
}
