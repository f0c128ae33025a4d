// The words for conditions and guards.
ghost use Rattle.std.specs.Prelude.{Some};
ghost use Rattle.chart_text.specs.Words.{condition_words, guard_words};

use super::Words;
use layout::parts::{Condition, Guard};
use std::fmt;

impl fmt::Display for Words<Condition> {
    ghost output = { λ w. Some (condition_words w.0) };

    fn fmt<W: fmt::Write>(&self, f: &mut fmt::Formatter<W>) -> fmt::Result {
        match self.0 {
            Condition::Equal {
                attribute,
                constant,
            } => write!(f, "attribute {attribute} is {constant}"),
            Condition::AtLeast {
                attribute,
                constant,
            } => write!(f, "attribute {attribute} is at least {constant}"),
            Condition::LessThan {
                attribute,
                constant,
            } => write!(f, "attribute {attribute} is below {constant}"),
            Condition::Absent { attribute } => write!(f, "attribute {attribute} is absent"),
            Condition::HoldsToken { node } => write!(f, "node {node} holds a token"),
        }
    }
}

impl fmt::Display for Words<Guard> {
    ghost output = { λ w. Some (guard_words w.0) };

    fn fmt<W: fmt::Write>(&self, f: &mut fmt::Formatter<W>) -> fmt::Result {
        match self.0 {
            Guard::One(a) => write!(f, "{}", Words(a)),
            Guard::Two(a, b) => write!(f, "{} and {}", Words(a), Words(b)),
            Guard::Three(a, b, c) => write!(f, "{} and {} and {}", Words(a), Words(b), Words(c)),
            Guard::Four(a, b, c, d) => write!(
                f,
                "{} and {} and {} and {}",
                Words(a),
                Words(b),
                Words(c),
                Words(d)
            ),
        }
    }
}
