// The records of a chart, each handed on as a part of the chart's bytes.
ghost use Rattle.std.specs.Prelude.{◌≡◌};
ghost use Rattle.layout.specs.Records.{place_of, bytes_of};

// A node's or an edge's record: the part of the chart's bytes that it is, and the place where that part begins. It has two
// cases, with the same fields, since the law of reading says of which kind each piece is, and whoever is handed a record
// alone, without the value that was read from it, is told so.
#[derive(Clone, Copy)]
pub enum Record<'a> {
    Node { bytes: &'a [u8], place: usize },
    Edge { bytes: &'a [u8], place: usize },
}

impl<'a> Record<'a> {
    // Where in the chart's bytes the record's map byte stands.
    pub fn place(&self) -> usize
        ensures { result ≡ place_of self.now }
    {
        match *self {
            Record::Node { place, .. } | Record::Edge { place, .. } => place,
        }
    }

    // The record as it stands in the chart's bytes.
    pub fn bytes(&self) -> &'a [u8]
        ensures { result.now ≡ bytes_of self.now }
    {
        match *self {
            Record::Node { bytes, .. } | Record::Edge { bytes, .. } => bytes,
        }
    }
}

// A value that was read from a chart's bytes, and the record that it stands in.
#[derive(Clone, Copy)]
pub struct Parsed<'a, T> {
    pub value: T,
    pub record: Record<'a>,
}
