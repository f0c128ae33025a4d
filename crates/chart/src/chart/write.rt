// Writes a chart.
ghost use Rattle.std.specs.Prelude.{◌≡◌, map, IfOk};
ghost use Rattle.layout.specs.Layout.{encode};
ghost use Rattle.chart.specs.Edges.{raw_of};
ghost use Rattle.chart.specs.Law.{parts_of};

use super::super::edge::Edge;
use super::Chart;
use encoder::WriteError;
use layout::parts::RawEdge;
use std::alloc::{AllocError, Global};

impl Chart {
    // The bytes that the chart is written as, and read from.
    pub fn write(&self, heap: Global) -> Result<Vec<u8>, AllocError>
        ensures { IfOk result (λ v. v.items ≡ encode (parts_of self.now)) }
    {
        let edges = raw_edges(heap, &self.edges)?;
        // No `From`: `TooMany` cannot come of a chart, and only here that is known.
        encoder::write(heap, &self.nodes, &edges).map_err(|error| match error {
            WriteError::TooMany => unreachable(),
            WriteError::Memory => AllocError,
        })
    }
}

// The edges as they stand in the bytes.
fn raw_edges(heap: Global, edges: &[Edge]) -> Result<Vec<RawEdge>, AllocError>
    ensures { IfOk result (λ v. v.items ≡ map raw_of edges.now) }
{
    edges.iter().map(Edge::raw).collect(heap)
}
