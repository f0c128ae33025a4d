// Worked examples: of reading a chart, of a packed record of facts, of cases, and of logs that the law of runs refuses.
ghost use Rattle.chart.specs.Samples.{Samples as ReadingSamples};
ghost use Rattle.facts.specs.Record.{WorkedExample};
ghost use Rattle.model.specs.Limits.{Limits};
ghost use Rattle.model.specs.Samples.{Samples};
ghost use Rattle.model.specs.WrongRuns.{WrongRuns};

// Each is worked out by the definitions that the contracts of the calls cite; so are both sides of each limit (`Limits`).
#[tactic(auto, using(facts::specs::Records::worked_example, crate::proofs::SampleRuns::samples, crate::proofs::SampleRuns::limits))]
pub fn worked_examples()
    ensures reading { ReadingSamples }
    ensures facts { WorkedExample }
    ensures cases { Samples }
    ensures limits { Limits }
{
    let _bytes = chart::samples::bill();
}

// Logs that no engine that obeys the law of runs leaves behind: of engines that are idle though an event waits, that take no edge, only some
// of those that must be taken, or too many, that mix up the order of edges or of events, and that do not tell the policy of an edge; that
// make up a number of orders, refuse an event without cause, or take a report of an order that is not open; that forget a fact, an order or
// a clock; and that ring a clock too early or twice. Each is refused whatever the case is said to be, or whatever it is besides what was
// forgotten. Beside two of them stands the right log, to show that only the fault is refused.
#[tactic(auto, using(crate::proofs::WrongLogs::wrong_runs))]
pub fn wrong_engines()
    ensures { WrongRuns }
{}
