// Reads the records of a chart from its bytes.
#![tactic(auto)]

mod cursor;
mod decode;
pub mod read;
mod records;
