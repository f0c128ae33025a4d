// The calls on a case that is open, their answers, and a log of both.
ghost use Rattle.std.specs.Prelude.{◌≡◌};
ghost use Rattle.model.specs.Entries.{call_of};

use crate::event::Event;
use crate::refusal::Refusal;

// A call on a case that is open.
#[derive(Clone, Copy)]
pub enum Call {
    // adds a named event
    Post { event: u8 },
    // gives an attribute a number, or makes it absent
    Tell { attribute: u8, value: Option<u32> },
    // says that the work of an order is done
    Report { order: u32 },
    // sets the moment
    Tick { moment: u32 },
    // takes one event and makes a step, with a buffer of so many bytes for the edges that are taken
    Turn { room: usize },
}

// Whether telling a fact changed it: no `bool`, so that an answer in a log reads by itself.
#[derive(Clone, Copy, Debug, PartialEq, Eq)]
pub enum Change {
    Changed,
    Unchanged,
}

// What a turn routed: the event, of which so many edges were taken, and so many orders opened.
#[derive(Clone, Copy, Debug, PartialEq, Eq)]
pub struct Routed {
    pub event: Event,
    pub edges: u8,
    pub orders: u8,
}

// A call with its answer, whose type goes with the kind of call: so a call's fields stand here again.
// A turn has its buffer too, which begins with the edges that were taken, in step order.
#[derive(Clone, Copy)]
pub enum Entry {
    Post {
        event: u8,
        answer: Result<(), Refusal>,
    },
    Tell {
        attribute: u8,
        value: Option<u32>,
        answer: Result<Change, Refusal>,
    },
    Report {
        order: u32,
        answer: Result<(), Refusal>,
    },
    Tick {
        moment: u32,
        answer: Result<(), Refusal>,
    },
    Turn {
        room: usize,
        // `None`: nothing waited, and no clock was due
        answer: Result<Option<Routed>, Refusal>,
        // the caller's, whose size is fixed
        buffer: [u8; 64],
    },
}

impl Entry {
    // The call that was made.
    pub fn call(&self) -> Call
        ensures { result ≡ call_of self.now }
    {
        match *self {
            Entry::Post { event, .. } => Call::Post { event },
            Entry::Tell {
                attribute,
                value,
                ..
            } => Call::Tell { attribute, value },
            Entry::Report { order, .. } => Call::Report { order },
            Entry::Tick { moment, .. } => Call::Tick { moment },
            Entry::Turn { room, .. } => Call::Turn { room },
        }
    }
}
