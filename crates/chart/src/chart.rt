// A chart that keeps its rules.
ghost use Rattle.std.specs.Prelude.{◌≡◌, true, map};
ghost use Rattle.chart.specs.Edges.{raw_of};
ghost use Rattle.chart.specs.Range.{fits};
ghost use Rattle.chart.specs.Rules.{Keeps};

use super::edge::Edge;
use layout::parts::Node;

// The flat graph by which a case runs: nodes that hold tokens, and edges that move them. Every chart that exists has its
// parts in range and keeps all seven rules.
#[derive(Drop)]
pub struct Chart {
    nodes: Vec<Node>,
    edges: Vec<Edge>,
    ghost in_range: { fits nodes.items (map raw_of edges.items) ≡ true },
    ghost keeps: { Keeps nodes.items (map raw_of edges.items) },
}

pub mod look;
pub mod make;
pub mod write;
