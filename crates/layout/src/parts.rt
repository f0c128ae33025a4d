// What the records of a chart say.
ghost use Rattle.std.specs.Prelude.{◌≡◌, ◌/◌, ◌^◌, ◌==◌};
ghost use Rattle.layout.specs.Sets.{member};
ghost use Rattle.layout.specs.Fits.{set_fits, condition_fits};

// A set of nodes, as the number that the bytes hold: node k is in it exactly if bit k stands. So an edge can be copied.
#[derive(Clone, Copy)]
pub struct NodeSet {
    pub bits: u32,
}

impl NodeSet {
    // Whether the node is in the set. No set has a node above 31.
    pub fn has(self, node: u8) -> bool
        ensures { result ≡ member self.bits node }
    {
        node < 32 && (self.bits >> node) % 2 == 1
    }

    // Whether these are one to four of the first `nodes` nodes.
    pub fn fits(self, nodes: usize) -> bool
        ensures { result ≡ set_fits nodes self }
    {
        let count = self.bits.count_ones();
        (1..=4).contains(&count) && self.is_below(nodes)
    }

    // Whether each node of the set is one of the first `nodes`.
    fn is_below(self, nodes: usize) -> bool
        ensures { result ≡ (self.bits / 2 ^ nodes == 0) }
    {
        32 <= nodes || self.bits >> nodes == 0
    }
}

// A node with an activity is an action node: each token that enters it is a work order.
#[derive(Clone, Copy)]
pub struct Node {
    pub activity: Option<u8>,
}

// What a guard asks of an attribute or of a node.
#[derive(Clone, Copy)]
pub enum Condition {
    Equal { attribute: u8, constant: u32 },
    AtLeast { attribute: u8, constant: u32 },
    LessThan { attribute: u8, constant: u32 },
    Absent { attribute: u8 },
    HoldsToken { node: u8 },
}

impl Condition {
    // Whether the attribute is one of the sixteen, or the node one of the first `nodes`.
    pub fn fits(self, nodes: usize) -> bool
        ensures { result ≡ condition_fits nodes self }
    {
        match self {
            Condition::Equal { attribute, .. }
            | Condition::AtLeast { attribute, .. }
            | Condition::LessThan { attribute, .. }
            | Condition::Absent { attribute } => attribute <= 15,
            Condition::HoldsToken { node } => usize::from(node) < nodes,
        }
    }
}

// One to four conditions, all of which must hold. They stand in place, and not in a Vec, so that an edge can be copied.
// Who goes over them has an arm for each number: no slice can be lent of the fields of a variant.
#[derive(Clone, Copy)]
pub enum Guard {
    One(Condition),
    Two(Condition, Condition),
    Three(Condition, Condition, Condition),
    Four(Condition, Condition, Condition, Condition),
}

// An edge as it stands in the bytes, where it may have several causes: a named event that triggers it, a time after
// it became relevant, a fixed moment.
#[derive(Clone, Copy)]
pub struct RawEdge {
    pub trigger: Option<u8>,
    pub after: Option<u32>,
    pub when: Option<u32>,
    pub guard: Option<Guard>,
    pub send: Option<u8>,
    pub sources: NodeSet,
    pub targets: NodeSet,
}
