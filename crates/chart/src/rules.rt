// The rules that every chart keeps.
ghost use Rattle.std.specs.Prelude.{◌≡◌};
ghost use Rattle.chart.specs.Rules.{rule_number, of_nodes};

// A rule of charts. Node 0 is where a case starts; an action node is one with an activity; an edge is plain if it waits
// for no event, time or moment, and timed if it waits for a time or a moment.
#[derive(Clone, Copy)]
pub enum Rule {
    // node 0 has no activity
    StartNoAction = 1,
    // no edge has node 0 as a target
    StartNoTarget = 2,
    // an edge with source 0 is plain and has no other source
    StartPlain = 3,
    // an edge with an action node among its sources is plain
    ActionPlain = 4,
    // an edge has at most one cause
    OneCause = 5,
    // at most 16 edges are timed
    FewTimed = 6,
    // node 0 and each action node is a source of some edge
    Leaves = 7,
}

impl Rule {
    // The number by which the rule is reported.
    pub fn number(self) -> u8
        ensures { result ≡ rule_number self }
    {
        self as u8
    }

    // Whether the rule speaks of nodes, and not of edges.
    pub(crate) fn of_nodes(self) -> bool
        ensures { result ≡ of_nodes self }
    {
        matches!(self, Rule::StartNoAction | Rule::Leaves)
    }
}

// The rules in the order in which they are checked.
pub(crate) const RULES: [Rule; 7] = [
    Rule::StartNoAction,
    Rule::StartNoTarget,
    Rule::StartPlain,
    Rule::ActionPlain,
    Rule::OneCause,
    Rule::FewTimed,
    Rule::Leaves,
];

// A rule, and the first record that breaks it: which node, where the rule speaks of nodes, else which edge.
#[derive(Clone, Copy)]
pub struct Breach {
    pub rule: Rule,
    pub index: usize,
}
