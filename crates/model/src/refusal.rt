// Why a call on a case is refused.
ghost use Rattle.std.specs.Prelude.{◌≡◌};
ghost use Rattle.model.specs.Refusals.{refusal_number};

use chart::refusal::Refusal as ChartRefusal;

// A refused call changes nothing.
#[derive(Clone, Copy)]
pub enum Refusal {
    // the case is not open
    NotOpen,
    // the case is open already
    AlreadyOpen,
    // the moment is above 4,000,000,000
    LateMoment,
    // the bytes are no chart, for the cause given
    Chart(ChartRefusal),
    // there is no such event, attribute, node or edge
    OutOfRange,
    // the moment is before the one that the case has come to
    EarlierMoment,
    // no order of this number is open
    OrderNotOpen,
    // 192 or more events wait
    EventsWaiting,
    // 256 events wait
    EventsFull,
    // the buffer has under 64 bytes
    ShortBuffer,
    // more than 64 tokens would stand
    TooManyTokens,
    // more than 256 events would wait
    TooManyEvents,
    // an order would have a number above 65,535
    NoOrderNumber,
    // there was no memory for the chart
    Memory,
}

impl Refusal {
    // The number under which the refusal is told. `as` gives no number of an enum of which a variant has a cause,
    // and a want of memory has none.
    pub fn number(self) -> Option<u8>
        ensures { result ≡ refusal_number self }
    {
        match self {
            Refusal::NotOpen => Some(21),
            Refusal::AlreadyOpen => Some(22),
            Refusal::LateMoment => Some(23),
            Refusal::Chart(_) => Some(25),
            Refusal::OutOfRange => Some(26),
            Refusal::EarlierMoment => Some(27),
            Refusal::OrderNotOpen => Some(28),
            Refusal::EventsWaiting => Some(31),
            Refusal::EventsFull => Some(32),
            Refusal::ShortBuffer => Some(33),
            Refusal::TooManyTokens => Some(34),
            Refusal::TooManyEvents => Some(35),
            Refusal::NoOrderNumber => Some(36),
            Refusal::Memory => None,
        }
    }
}
