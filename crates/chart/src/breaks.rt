// Which rule a chart's parts break first.
ghost use Rattle.std.specs.Prelude.{◌≡◌, ◌<◌};
ghost use Rattle.chart.specs.Edges.{plain as plain_edge, timed as timed_edge, several as several_causes};
ghost use Rattle.chart.specs.Rules.{action_in, sourced, timed_count, breaks, records};
ghost use Rattle.chart.specs.Judge.{first_record, first_breach};

use super::parts::Parts;
use super::rules::{Breach, RULES, Rule};
use layout::parts::{NodeSet, RawEdge};

fn plain(edge: &RawEdge) -> bool
    ensures { result ≡ plain_edge edge.now }
{
    edge.trigger.is_none() && edge.after.is_none() && edge.when.is_none()
}

fn timed(edge: &RawEdge) -> bool
    ensures { result ≡ timed_edge edge.now }
{
    edge.after.is_some() || edge.when.is_some()
}

fn several(edge: &RawEdge) -> bool
    ensures { result ≡ several_causes edge.now }
{
    (edge.trigger.is_some() && timed(edge)) || (edge.after.is_some() && edge.when.is_some())
}

// How many edges are timed.
fn count_timed(edges: &[RawEdge]) -> usize
    ensures { result ≡ timed_count edges.now }
{
    edges.iter().filter(|edge| timed(edge)).count()
}

impl Parts<'_> {
    // Whether an action node is in the set.
    fn action_in(&self, set: NodeSet) -> bool
        ensures { result ≡ action_in self.now.nodes.now set.bits }
    {
        self.nodes
            .iter()
            .enumerate()
            .any(|(k, node)| node.activity.is_some() && set.has(k as u8))
    }

    // Whether the node is a source of some edge.
    fn is_source(&self, node: u8) -> bool
        ensures { result ≡ sourced self.now.edges.now node }
    {
        self.edges.iter().any(|edge| edge.sources.has(node))
    }

    // Whether record `k` breaks the rule: node `k` or edge `k`, whichever the rule speaks of.
    // One `match`, which is the table of the rules: a closure for each would look at the same parts and say no more.
    fn breaks(&self, rule: Rule, k: usize) -> bool
        requires { k < records rule self.now.nodes.now self.now.edges.now }
        ensures { result ≡ breaks rule self.now.nodes.now self.now.edges.now k }
    {
        let Parts { nodes, edges } = *self;
        match rule {
            Rule::StartNoAction => k == 0 && nodes[k].activity.is_some(),
            Rule::StartNoTarget => edges[k].targets.has(0),
            Rule::StartPlain => edges[k].sources.has(0)
                && !(plain(&edges[k]) && edges[k].sources.bits == 1),
            Rule::ActionPlain => self.action_in(edges[k].sources) && !plain(&edges[k]),
            Rule::OneCause => several(&edges[k]),
            Rule::FewTimed => timed(&edges[k]) && count_timed(&edges[..k]) == 16,
            Rule::Leaves => (k == 0 || nodes[k].activity.is_some()) && !self.is_source(k as u8),
        }
    }

    // How many records the rule speaks of.
    fn record_count(&self, rule: Rule) -> usize
        ensures { result ≡ records rule self.now.nodes.now self.now.edges.now }
    {
        if rule.of_nodes() {
            self.nodes.len()
        } else {
            self.edges.len()
        }
    }

    // The first record that breaks the rule.
    fn first_record(&self, rule: Rule) -> Option<usize>
        ensures { result ≡ first_record rule self.now.nodes.now self.now.edges.now }
    {
        (0..self.record_count(rule)).find(|k| self.breaks(rule, *k))
    }

    // The lowest rule that the parts break, and the first record that breaks it.
    pub(crate) fn first_breach(&self) -> Option<Breach>
        ensures { result ≡ first_breach self.now.nodes.now self.now.edges.now }
    {
        RULES.iter().find_map(|&rule| {
            let index = self.first_record(rule)?;
            Some(Breach { rule, index })
        })
    }
}
