// What a chart says.
ghost use Rattle.std.specs.Prelude.{◌≡◌};

use super::super::edge::Edge;
use super::Chart;
use layout::parts::Node;

impl Chart {
    pub fn nodes(&self) -> &[Node]
        ensures { result.now ≡ self.now.nodes.items }
    {
        self.nodes.as_slice()
    }

    pub fn edges(&self) -> &[Edge]
        ensures { result.now ≡ self.now.edges.items }
    {
        self.edges.as_slice()
    }
}
