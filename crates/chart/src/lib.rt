// Charts that keep their rules: made, read, shown and written.
#![tactic(auto)]

mod breaks;
pub mod chart;
pub mod edge;
mod parts;
mod range;
pub mod read;
pub mod refusal;
pub mod rules;
pub mod samples;
