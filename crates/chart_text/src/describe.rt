// A whole chart in words.
ghost use Rattle.std.specs.Prelude.{◌≡◌, IfOk, Some, string_bytes};
ghost use Rattle.chart_text.specs.Words.{node_lines, edge_lines, description};

use super::edges::EdgeLine;
use super::kinds::NodeLine;
use chart::edge::Edge;
use layout::parts::Node;
use std::alloc::{AllocError, Global};
use std::fmt;

// A line for each node. The lines of edges are another type, since the line of a node looks at the edges too.
#[derive(Clone, Copy)]
struct NodeLines<'a> {
    nodes: &'a [Node],
    edges: &'a [Edge],
}

impl fmt::Display for NodeLines<'_> {
    ghost output = { λ l. Some (node_lines l.edges.now l.nodes.now) };

    fn fmt<W: fmt::Write>(&self, f: &mut fmt::Formatter<W>) -> fmt::Result {
        let edges = self.edges;
        for (number, node) in self.nodes.iter().enumerate() {
            let line = NodeLine {
                number,
                node,
                edges,
            };
            write!(f, "{line}")?;
        }
        Ok(())
    }
}

// A line for each edge.
#[derive(Clone, Copy)]
struct EdgeLines<'a>(&'a [Edge]);

impl fmt::Display for EdgeLines<'_> {
    ghost output = { λ l. Some (edge_lines l.0.now) };

    fn fmt<W: fmt::Write>(&self, f: &mut fmt::Formatter<W>) -> fmt::Result {
        for (number, edge) in self.0.iter().enumerate() {
            let line = EdgeLine(number, edge);
            write!(f, "{line}")?;
        }
        Ok(())
    }
}

// A chart in words: how many nodes and edges it has, each node with its kind, and each edge.
pub fn describe(heap: Global, nodes: &[Node], edges: &[Edge]) -> Result<String, AllocError>
    ensures { IfOk result (λ s. string_bytes s ≡ description nodes.now edges.now) }
{
    let node_count = nodes.len();
    let edge_count = edges.len();
    let node_lines = NodeLines { nodes, edges };
    let edge_lines = EdgeLines(edges);
    format!(in heap; "chart: {node_count} nodes, {edge_count} edges\n{node_lines}{edge_lines}")
}
