// Walks over many records, and hands each on with what it says.
ghost use Rattle.std.specs.Prelude.{◌≡◌, ℕ, List};
ghost use Rattle.layout.specs.Records.{Piece, piece, node_piece, edge_piece};
ghost use Rattle.reader.specs.Walk.{Hands, HandsAll};

use super::cursor::Cursor;
use super::decode::Decode;
use layout::parts::{Node, RawEdge};
use layout::record::{Parsed, Record};
use layout::refusal::{ReadError, Refusal};
use std::alloc::Global;

// A part of a chart that has a record of its own.
pub(crate) trait Recorded: Decode {
    ghost piece_of: { ℕ → List ℕ → Piece };

    fn record(bytes: &[u8], place: usize) -> Record<'_>
        ensures { piece result ≡ piece_of place bytes.now };
}

impl Recorded for Node {
    ghost piece_of = { node_piece };

    fn record(bytes: &[u8], place: usize) -> Record<'_> {
        Record::Node { bytes, place }
    }
}

impl Recorded for RawEdge {
    ghost piece_of = { edge_piece };

    fn record(bytes: &[u8], place: usize) -> Record<'_> {
        Record::Edge { bytes, place }
    }
}

// The next record, and what it says.
fn parsed<'a, T: Recorded>(
    cursor: &mut Cursor<'a>,
    limits: T::Limits,
) -> Result<Parsed<'a, T>, Refusal>
    ensures { Hands (T.part_at limits) T.piece_of cursor.old cursor.new result }
{
    let place = cursor.place;
    let value = T::decode(cursor, limits)?;
    let record = T::record(&cursor.bytes[place..cursor.place], place);
    Ok(Parsed { value, record })
}

// As many records, each with what it says. Not by `collect`, which does not tell that it fails where a record does.
pub(crate) fn all_parsed<'a, T: Recorded + Drop>(
    heap: Global,
    cursor: &mut Cursor<'a>,
    limits: T::Limits,
    count: u8,
) -> Result<Vec<Parsed<'a, T>>, ReadError>
    ensures { HandsAll (T.part_at limits) T.piece_of count cursor.old cursor.new result }
{
    let mut all = Vec::new(heap);
    for _i in 0..count {
        all.push(parsed(cursor, limits)?)?;
    }
    Ok(all)
}
