// The words for edges.
ghost use Rattle.std.specs.Prelude.{Some};
ghost use Rattle.chart_text.specs.Words.{cause_words, guard_part, send_part, set_words, edge_line};

use super::Words;
use chart::edge::{Cause, Edge};
use layout::parts::{Guard, NodeSet};
use std::fmt;

// What an edge waits for.
impl fmt::Display for Words<Cause> {
    ghost output = { λ w. Some (cause_words w.0) };

    fn fmt<W: fmt::Write>(&self, f: &mut fmt::Formatter<W>) -> fmt::Result {
        match self.0 {
            Cause::Plain => write!(f, "plain"),
            Cause::Event(event) => write!(f, "on event {event}"),
            Cause::After(time) => write!(f, "{time} after it became relevant"),
            Cause::At(moment) => write!(f, "at moment {moment}"),
        }
    }
}

// The nodes of a set, in rising order. The loop asks `has` itself: of a `for` over a `filter` in this method the check
// makes a statement that is ill-typed, so it leaves nothing to prove.
impl fmt::Display for Words<NodeSet> {
    ghost output = { λ w. Some (set_words w.0.bits) };

    fn fmt<W: fmt::Write>(&self, f: &mut fmt::Formatter<W>) -> fmt::Result {
        let mut separator = "";
        for node in 0..32 {
            if self.0.has(node) {
                write!(f, "{separator}{node}")?;
                separator = ", ";
            }
        }
        Ok(())
    }
}

// The guard of an edge, if it has one.
impl fmt::Display for Words<Option<Guard>> {
    ghost output = { λ w. Some (guard_part w.0) };

    fn fmt<W: fmt::Write>(&self, f: &mut fmt::Formatter<W>) -> fmt::Result {
        match self.0 {
            Some(guard) => write!(f, "; if {}", Words(guard)),
            None => Ok(()),
        }
    }
}

// The event that an edge sends, if it sends one.
#[derive(Clone, Copy)]
struct Sent(Option<u8>);

impl fmt::Display for Sent {
    ghost output = { λ s. Some (send_part s.0) };

    fn fmt<W: fmt::Write>(&self, f: &mut fmt::Formatter<W>) -> fmt::Result {
        match self.0 {
            Some(event) => write!(f, "; sends event {event}"),
            None => Ok(()),
        }
    }
}

// The line for an edge with its number.
#[derive(Clone, Copy)]
pub(crate) struct EdgeLine<'a>(pub(crate) usize, pub(crate) &'a Edge);

impl fmt::Display for EdgeLine<'_> {
    ghost output = { λ l. Some (edge_line l.0 l.1.now) };

    fn fmt<W: fmt::Write>(&self, f: &mut fmt::Formatter<W>) -> fmt::Result {
        let EdgeLine(number, edge) = *self;
        let cause = Words(edge.cause);
        let guard = Words(edge.guard);
        let sources = Words(edge.sources);
        let targets = Words(edge.targets);
        let sent = Sent(edge.send);
        writeln!(
            f,
            "edge {number}: {cause}{guard}; from {sources}; to {targets}{sent}"
        )
    }
}
