// What a person sees of a chart: its nodes and edges in words, why bytes are refused as a chart, and where in a file.
#![tactic(auto)]

mod conditions;
pub mod describe;
mod edges;
pub mod kinds;
pub mod refusals;

// Shows a value of another crate in words: Display is std's, so this crate cannot write it for the value itself.
#[derive(Clone, Copy)]
pub(crate) struct Words<T>(pub(crate) T);
