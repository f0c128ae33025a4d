// Reads a chart from its bytes.
ghost use Rattle.std.specs.Prelude.{◌≡◌, ◌<◌, ◌≤◌, Err, map, length, take};
ghost use Rattle.chart.specs.Rules.{records};
ghost use Rattle.chart.specs.Law.{Exactly, Lawful, Unambiguous, Ready, Judges, Misfits, raw_parts, record_place, told};

use super::chart::Chart;
use super::refusal::{ReadError, Refusal, Unfit};
use super::rules::Breach;
use layout::chart::RawChart;
use layout::parts::{Node, NodeSet, RawEdge};
use layout::record::Parsed;
use std::alloc::Global;

// Reads the chart that the bytes are, or says why they are none.
#[tactic(auto, using(crate::proofs::Reading::exactly, crate::proofs::Reading::lawful, crate::proofs::Reading::exactly_not, crate::proofs::Reading::lawful_not, crate::proofs::Reading::unambiguous))]
pub fn read(heap: Global, bytes: &[u8]) -> Result<Chart, ReadError>
    ensures exact { Exactly bytes.now result }
    ensures law { Lawful bytes.now result }
    ensures unambiguous { Unambiguous }
{
    let raw = reader::read::read(heap, bytes)?;
    judge(heap, &raw)
}

// What stands in the places of a list that holds no node, and no edge.
const NO_NODE: Node = Node { activity: None };

const NO_EDGE: RawEdge = RawEdge {
    trigger: None,
    after: None,
    when: None,
    guard: None,
    send: None,
    sources: NodeSet { bits: 0 },
    targets: NodeSet { bits: 0 },
};

// Judges by the rules what the layout has let pass. That it has is required here and below, and no ghost field: the type
// is the layout's, and a struct round it would have no other use.
// The values are copied into fixed places, as many as a chart may have: from the layout to the rules no memory is asked
// for, so a broken rule is told though there is none.
fn judge(heap: Global, raw: &RawChart<'_>) -> Result<Chart, ReadError>
    requires { Ready raw.now }
    ensures { Judges raw.now result }
{
    let mut nodes = [NO_NODE; 32];
    let mut edges = [NO_EDGE; 64];
    copy_values(&raw.nodes, &mut nodes);
    copy_values(&raw.edges, &mut edges);
    let nodes = &nodes[..raw.nodes.len()];
    let edges = &edges[..raw.edges.len()];
    // A `match` and no `map_err`: of a closure that captures `raw` the check hands on no `ensures`.
    match Chart::copied(heap, nodes, edges) {
        Ok(chart) => Ok(chart),
        Err(unfit) => Err(refuse(unfit, raw)),
    }
}

// Copies the values, without the records that they stand in, to the front of the places.
fn copy_values<T: Copy>(parsed: &[Parsed<'_, T>], places: &mut [T])
    requires { length parsed.now ≤ length places.old }
    ensures values { take (length parsed.now) places.new ≡ map (λ p. p.value) parsed.now }
    ensures same { length places.new ≡ length places.old }
{
    for (k, parsed) in parsed.iter().enumerate() {
        places[k] = parsed.value;
    }
}

// A broken rule is told with the place of the record that breaks it.
#[tactic(auto, using(crate::proofs::Judged::never_out))]
fn refuse(unfit: Unfit, raw: &RawChart<'_>) -> ReadError
    requires ready { Ready raw.now }
    requires misfit { Misfits raw.now unfit }
    ensures told { result ≡ told unfit (raw_parts raw.now) }
    ensures judged { Judges raw.now (Err result) }
{
    match unfit {
        Unfit::OutOfRange => unreachable(),
        Unfit::Broken(breach) => ReadError::Refused(Refusal::Broken {
            rule: breach.rule,
            place: place_of(breach, raw),
        }),
        Unfit::Memory => ReadError::Memory,
    }
}

// Where the record begins that breaks the rule.
fn place_of(breach: Breach, raw: &RawChart<'_>) -> usize
    requires ready { Ready raw.now }
    requires within { breach.index < records breach.rule (raw_parts raw.now).nodes (raw_parts raw.now).edges }
    ensures { result ≡ record_place breach.rule (raw_parts raw.now).nodes (raw_parts raw.now).edges breach.index }
{
    if breach.rule.of_nodes() {
        raw.nodes[breach.index].record.place()
    } else {
        raw.edges[breach.index].record.place()
    }
}
