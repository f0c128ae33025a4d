// The edges of a chart that exists: each has one cause at most.
ghost use Rattle.std.specs.Prelude.{◌≡◌, true, MatchResult};
ghost use Rattle.chart.specs.Edges.{raw_of, several};

use layout::parts::{Guard, NodeSet, RawEdge};

// What an edge waits for besides tokens at its sources and a true guard.
#[derive(Clone, Copy)]
pub enum Cause {
    // nothing: the edge is plain
    Plain,
    // a named event
    Event(u8),
    // as much time after the edge became relevant
    After(u32),
    // a fixed moment
    At(u32),
}

// An edge takes a token from each source and gives one to each target; where it sends a named event, it does so when it
// is taken.
#[derive(Clone, Copy)]
pub struct Edge {
    pub cause: Cause,
    pub guard: Option<Guard>,
    pub send: Option<u8>,
    pub sources: NodeSet,
    pub targets: NodeSet,
}

impl Edge {
    // The edge as it stands in the bytes of a chart.
    pub fn raw(&self) -> RawEdge
        ensures { result ≡ raw_of self.now }
    {
        RawEdge::from(*self)
    }
}

impl From<Edge> for RawEdge {
    ghost from_gives = { λ edge raw. raw ≡ raw_of edge };

    fn from(edge: Edge) -> RawEdge {
        let Edge {
            cause,
            guard,
            send,
            sources,
            targets,
        } = edge;
        let (trigger, after, when) = match cause {
            Cause::Plain => (None, None, None),
            Cause::Event(event) => (Some(event), None, None),
            Cause::After(time) => (None, Some(time), None),
            Cause::At(moment) => (None, None, Some(moment)),
        };
        RawEdge {
            trigger,
            after,
            when,
            guard,
            send,
            sources,
            targets,
        }
    }
}

// An edge that has more than one cause in the bytes.
#[derive(Clone, Copy)]
pub struct SeveralCauses;

impl TryFrom<RawEdge> for Edge {
    type Error = SeveralCauses;

    ghost try_from_gives = { λ raw result. MatchResult result (λ edge. raw_of edge ≡ raw) (λ _. several raw ≡ true) };

    fn try_from(raw: RawEdge) -> Result<Edge, SeveralCauses> {
        let RawEdge {
            trigger,
            after,
            when,
            guard,
            send,
            sources,
            targets,
        } = raw;
        let cause = match (trigger, after, when) {
            (None, None, None) => Cause::Plain,
            (Some(event), None, None) => Cause::Event(event),
            (None, Some(time), None) => Cause::After(time),
            (None, None, Some(moment)) => Cause::At(moment),
            _ => return Err(SeveralCauses),
        };
        Ok(Edge {
            cause,
            guard,
            send,
            sources,
            targets,
        })
    }
}
