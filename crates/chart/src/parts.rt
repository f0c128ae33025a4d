// The parts of a chart, taken together.
ghost use Rattle.std.specs.Prelude.{◌≡◌, true, false, MatchResult};
ghost use Rattle.chart.specs.Range.{fits};
ghost use Rattle.chart.specs.declared.refusal.Unfit.TheVariants.{OutOfRange};

use super::range::in_range;
use super::refusal::Unfit;
use layout::parts::{Node, RawEdge};

// The nodes and edges of a chart: as many of each as a chart may have, and each in range.
#[derive(Clone, Copy)]
pub(crate) struct Parts<'a> {
    pub(crate) nodes: &'a [Node],
    pub(crate) edges: &'a [RawEdge],
    ghost in_range: { fits nodes.now edges.now ≡ true },
}

impl<'a> Parts<'a> {
    // These nodes and edges, if they are in range.
    pub(crate) fn checked(nodes: &'a [Node], edges: &'a [RawEdge]) -> Result<Parts<'a>, Unfit>
        ensures { MatchResult result (λ parts. (parts.nodes.now ≡ nodes.now) × (parts.edges.now ≡ edges.now)) (λ unfit. (unfit ≡ OutOfRange) × (fits nodes.now edges.now ≡ false)) }
    {
        if in_range(nodes, edges) {
            Ok(Parts { nodes, edges })
        } else {
            Err(Unfit::OutOfRange)
        }
    }
}
