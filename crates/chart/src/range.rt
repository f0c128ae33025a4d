// Whether parts of a chart are in range.
ghost use Rattle.std.specs.Prelude.{◌≡◌};
ghost use Rattle.std.specs.List.{list_all};
ghost use Rattle.chart.specs.Range.{absent_or, within as within_range, node_fits, edge_fits, guard_fits, counted as counted_right, fits};

use layout::parts::{Guard, Node, RawEdge};

// Whether there are as many nodes and edges as a chart may have, and each is in range.
pub(crate) fn in_range(nodes: &[Node], edges: &[RawEdge]) -> bool
    ensures { result ≡ fits nodes.now edges.now }
{
    counted(nodes, edges) && nodes_fit(nodes) && edges_fit(nodes.len(), edges)
}

fn counted(nodes: &[Node], edges: &[RawEdge]) -> bool
    ensures { result ≡ counted_right nodes.now edges.now }
{
    (2..=32).contains(&nodes.len()) && (1..=64).contains(&edges.len())
}

fn nodes_fit(nodes: &[Node]) -> bool
    ensures { result ≡ list_all node_fits nodes.now }
{
    nodes
        .iter()
        .all(|node| within(0, 63, node.activity.map(u32::from)))
}

fn edges_fit(nodes: usize, edges: &[RawEdge]) -> bool
    ensures { result ≡ list_all (edge_fits nodes) edges.now }
{
    edges.iter().all(|edge| edge_fits(nodes, edge))
}

// Whether the edge is in range in a chart of so many nodes.
fn edge_fits(nodes: usize, edge: &RawEdge) -> bool
    ensures { result ≡ edge_fits nodes edge.now }
{
    within(0, 31, edge.trigger.map(u32::from))
        && within(1, 100_000_000, edge.after)
        && within(0, 4_000_000_000, edge.when)
        && guard_fits(nodes, edge.guard)
        && within(0, 31, edge.send.map(u32::from))
        && edge.sources.fits(nodes)
        && edge.targets.fits(nodes)
}

// Whether the number is absent, or from `low` to `high`.
fn within(low: u32, high: u32, number: Option<u32>) -> bool
    ensures { result ≡ within_range low high number }
{
    number.is_none_or(|number| (low..=high).contains(&number))
}

fn guard_fits(nodes: usize, guard: Option<Guard>) -> bool
    ensures { result ≡ absent_or (guard_fits nodes) guard }
{
    guard.is_none_or(|guard| match guard {
        Guard::One(a) => a.fits(nodes),
        Guard::Two(a, b) => a.fits(nodes) && b.fits(nodes),
        Guard::Three(a, b, c) => a.fits(nodes) && b.fits(nodes) && c.fits(nodes),
        Guard::Four(a, b, c, d) => a.fits(nodes) && b.fits(nodes) && c.fits(nodes) && d.fits(nodes),
    })
}
