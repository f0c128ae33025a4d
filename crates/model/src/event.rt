// What may happen in a case.
ghost use Rattle.std.specs.Prelude.{◌≡◌};
ghost use Rattle.model.specs.Ranks.{priority_of, event_before, same_event};
ghost use Rattle.std.proofs.Common.{rules};

use bag::record::{Ranked, Tagged};

// An event, one of six kinds. All but a ring may wait in a bag until a turn takes it.
#[derive(Clone, Copy, Debug, PartialEq, Eq)]
pub enum Event {
    // a token entered the node
    Completion(u8),
    // work at the node was reported done
    Termination(u8),
    // the attribute has another value
    Attribute(u8),
    // a token entered a node that a guard looks at
    Node(u8),
    // the named event came from outside or was sent by an edge
    Named(u8),
    // a clock of the edge came due
    Ring(u8),
}

// In which order events leave.
#[derive(Clone, Copy, Debug, PartialEq, Eq, PartialOrd, Ord)]
enum Priority {
    Completion,
    Termination,
    // an attribute's or a node's
    Change,
    Named,
    Ring,
}

impl Event {
    fn priority(self) -> Priority
        ensures { result ≡ priority_of self }
    {
        match self {
            Event::Completion(_) => Priority::Completion,
            Event::Termination(_) => Priority::Termination,
            Event::Attribute(_) | Event::Node(_) => Priority::Change,
            Event::Named(_) => Priority::Named,
            Event::Ring(_) => Priority::Ring,
        }
    }
}

impl Ranked for Event {
    ghost before = { event_before };

    ghost asymmetric = { Prim.search rules };

    ghost transitive = { Prim.search rules };

    fn ranks_before(&self, other: &Event) -> bool {
        self.priority() < other.priority()
    }
}

// An event's tag is all of it: its kind and its subject.
impl Tagged for Event {
    type Tag = Event;

    ghost tagged = { same_event };

    fn has_tag(&self, tag: Event) -> bool {
        *self == tag
    }
}
