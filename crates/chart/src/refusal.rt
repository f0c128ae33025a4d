// Why bytes or parts make no chart.
ghost use Rattle.std.specs.Prelude.{◌≡◌};
ghost use Rattle.chart.specs.Refusals.{number_of, place_of, rule_of, raised};
ghost use Rattle.chart.specs.declared.refusal.ReadError.TheVariants.{Memory};
ghost use Rattle.chart.specs.declared.refusal.Unfit.TheVariants as unfit_of;

use super::rules::{Breach, Rule};
use std::alloc::AllocError;

// Why bytes are refused as a chart.
#[derive(Clone, Copy)]
pub enum Refusal {
    // the bytes are not laid out as a chart
    Malformed(layout::refusal::Refusal),
    // a rule is broken first by the record whose map byte stands at the place
    Broken { rule: Rule, place: usize },
}

impl Refusal {
    // The number by which the refusal is reported, 11 to 16. A `match`: `as` gives no number of an enum whose variants have
    // fields.
    pub fn number(self) -> u8
        ensures { result ≡ number_of self }
    {
        match self {
            Refusal::Malformed(refusal) => refusal.fault.number(),
            Refusal::Broken { .. } => 16,
        }
    }

    // The byte at which the refusal points.
    pub fn place(self) -> usize
        ensures { result ≡ place_of self }
    {
        match self {
            Refusal::Malformed(refusal) => refusal.place,
            Refusal::Broken { place, .. } => place,
        }
    }

    // The rule that is broken, if that is the reason.
    pub fn rule(self) -> Option<Rule>
        ensures { result ≡ rule_of self }
    {
        match self {
            Refusal::Malformed(_) => None,
            Refusal::Broken { rule, .. } => Some(rule),
        }
    }
}

// What reading can end with in place of a chart.
#[derive(Clone, Copy)]
pub enum ReadError {
    // the bytes are refused
    Refused(Refusal),
    // there is no memory for the chart
    Memory,
}

impl From<layout::refusal::ReadError> for ReadError {
    ghost from_gives = { λ e r. r ≡ raised e };

    fn from(error: layout::refusal::ReadError) -> ReadError {
        match error {
            layout::refusal::ReadError::Invalid(refusal) => {
                ReadError::Refused(Refusal::Malformed(refusal))
            }
            layout::refusal::ReadError::Memory => ReadError::Memory,
        }
    }
}

impl From<AllocError> for ReadError {
    ghost from_gives = { λ _ r. r ≡ Memory };

    fn from(_e: AllocError) -> ReadError {
        ReadError::Memory
    }
}

// What making a chart from parts can end with in place of the chart.
#[derive(Clone, Copy)]
pub enum Unfit {
    // there are too few or too many parts, or a number in one of them is out of its range
    OutOfRange,
    // a rule is broken
    Broken(Breach),
    // there is no memory for the chart
    Memory,
}

impl From<AllocError> for Unfit {
    ghost from_gives = { λ _ r. r ≡ unfit_of.Memory };

    fn from(_e: AllocError) -> Unfit {
        Unfit::Memory
    }
}
