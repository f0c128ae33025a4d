// What the bytes of a chart say, record by record.
use super::parts::{Node, RawEdge};
use super::record::Parsed;

// The nodes and edges of a chart as they stand in its bytes, each with its record. Nothing is known yet of the chart's
// rules.
#[derive(Drop)]
pub struct RawChart<'a> {
    pub nodes: Vec<Parsed<'a, Node>>,
    pub edges: Vec<Parsed<'a, RawEdge>>,
}
