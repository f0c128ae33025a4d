// The layout of a chart: its records as they stand in bytes.
#![tactic(auto)]

pub mod chart;
pub mod parts;
pub mod record;
pub mod refusal;
