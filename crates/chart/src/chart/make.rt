// Makes a chart of parts.
ghost use Rattle.std.specs.Prelude.{◌≡◌, false, map, All, IfOk};
ghost use Rattle.chart.specs.Edges.{raw_of, several as several_causes};
ghost use Rattle.chart.specs.Law.{Kept, Made};

use super::super::edge::Edge;
use super::super::parts::Parts;
use super::super::refusal::Unfit;
use super::Chart;
use layout::parts::{Node, RawEdge};
use std::alloc::{AllocError, Global};

impl Chart {
    // The chart of these nodes and edges, which must be in range and keep the rules.
    pub fn new(heap: Global, nodes: Vec<Node>, edges: &[RawEdge]) -> Result<Chart, Unfit>
        ensures { Made nodes.items edges.now result }
    {
        let edges = kept(heap, &nodes, edges)?;
        Ok(Chart { nodes, edges })
    }

    // The same of nodes that are lent.
    pub(crate) fn copied(heap: Global, nodes: &[Node], edges: &[RawEdge]) -> Result<Chart, Unfit>
        ensures { Made nodes.now edges.now result }
    {
        let edges = kept(heap, nodes, edges)?;
        let nodes = nodes.to_vec(heap)?;
        Ok(Chart { nodes, edges })
    }
}

// The edges of the chart of these nodes and edges, which must be in range and keep the rules. No memory is asked for
// before that is known.
#[tactic(auto, using(crate::proofs::Lowest::keeps, crate::proofs::Makes::one_cause))]
fn kept(heap: Global, nodes: &[Node], edges: &[RawEdge]) -> Result<Vec<Edge>, Unfit>
    ensures { Kept nodes.now edges.now result }
{
    let parts = Parts::checked(nodes, edges)?;
    if let Some(breach) = parts.first_breach() {
        return Err(Unfit::Broken(breach));
    }
    Ok(edges_of(heap, edges)?)
}

// The edges that stand in the bytes so; none of them has several causes.
fn edges_of(heap: Global, raw: &[RawEdge]) -> Result<Vec<Edge>, AllocError>
    requires { All (λ edge. several_causes edge ≡ false) raw.now }
    ensures { IfOk result (λ v. map raw_of v.items ≡ raw.now) }
{
    raw.iter()
        .map(
            |edge|
                requires { several_causes edge.now ≡ false }
                ensures { raw_of result ≡ edge.now }
            { Edge::try_from(*edge).unwrap() },
        )
        .collect(heap)
}
