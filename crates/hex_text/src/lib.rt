// Bytes as hexadecimal text for people: read, with the place of each byte in the text, and written.
#![tactic(auto)]

mod reader;
pub mod text;
