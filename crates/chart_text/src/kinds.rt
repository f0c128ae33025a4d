// The kinds of nodes.
ghost use Rattle.std.specs.Prelude.{◌≡◌, Some, map};
ghost use Rattle.chart.specs.Edges.{raw_of};
ghost use Rattle.chart.specs.Rules.{sourced};
ghost use Rattle.chart_text.specs.Words.{leaves, kind_at, kind_words, node_line};

use chart::edge::Edge;
use layout::parts::Node;
use std::fmt;

// What a node is for.
#[derive(Clone, Copy)]
pub enum Kind {
    // each token that enters it is a work order for the activity
    Action(u8),
    // tokens wait in it for an edge to take them
    Wait,
    // no edge leaves it
    Final,
}

impl fmt::Display for Kind {
    ghost output = { λ k. Some (kind_words k) };

    fn fmt<W: fmt::Write>(&self, f: &mut fmt::Formatter<W>) -> fmt::Result {
        match self {
            Kind::Action(activity) => write!(f, "action, activity {activity}"),
            Kind::Wait => write!(f, "wait"),
            Kind::Final => write!(f, "final"),
        }
    }
}

// Whether the node is a source of some edge. The chart's own test for it goes over the edges as they stand in the bytes.
fn is_source(edges: &[Edge], node: u8) -> bool
    ensures { result ≡ sourced (map raw_of edges.now) node }
{
    edges.iter().any(|edge| edge.sources.has(node))
}

// Whether some edge leaves the node with this number. No set has a node above 31.
fn is_left(edges: &[Edge], number: usize) -> bool
    ensures { result ≡ leaves edges.now number }
{
    number < 32 && is_source(edges, number as u8)
}

// The kind of the node with this number.
pub fn kind_of(node: &Node, number: usize, edges: &[Edge]) -> Kind
    ensures { result ≡ kind_at node.now number edges.now }
{
    match node.activity {
        Some(activity) => Kind::Action(activity),
        None if is_left(edges, number) => Kind::Wait,
        None => Kind::Final,
    }
}

// The line for a node among edges, with its number.
#[derive(Clone, Copy)]
pub(crate) struct NodeLine<'a> {
    pub(crate) number: usize,
    pub(crate) node: &'a Node,
    pub(crate) edges: &'a [Edge],
}

impl fmt::Display for NodeLine<'_> {
    ghost output = { λ l. Some (node_line l.number l.node.now l.edges.now) };

    fn fmt<W: fmt::Write>(&self, f: &mut fmt::Formatter<W>) -> fmt::Result {
        let number = self.number;
        let kind = kind_of(self.node, number, self.edges);
        writeln!(f, "node {number}: {kind}")
    }
}
