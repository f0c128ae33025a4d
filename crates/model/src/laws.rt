// Laws of what a step does, and of every run, whatever the chart and the case.
ghost use Rattle.model.specs.ChoiceLaw.{Lawful, Only, Relevant, Short};
ghost use Rattle.model.specs.Graph.{Rules, graph_of};
ghost use Rattle.model.specs.RunLaw.{Decides, GoesOn, LawOfRuns};

use chart::chart::Chart;
use policy::Policy;

// The edges that a step takes obey a law (`Lawful`): they are edges of the chart in step order, none more often than it is enabled; no
// node lacks the tokens that they use; and an edge that is taken less often than it is enabled has a source all of whose tokens are
// used by edges no later than it. No other list obeys that law (`Only`). Where each edge leaves a node, a list that does has as many
// edges as there are tokens at most (`Short`). And the least over an edge's sources, its relevance, is the greatest number that is at
// most each of theirs and at most a given one (`Relevant`).
#[tactic(auto, using(crate::proofs::Choices::lawful, crate::proofs::Choices::short, crate::proofs::Choices::only, crate::proofs::Relevance::relevant))]
pub fn of_choice()
    ensures lawful { Lawful }
    ensures short { Short }
    ensures only { Only }
    ensures relevant { Relevant }
{}

// Every chart that exists keeps what the law of runs uses of a chart's ranges and rules.
#[tactic(auto, using(crate::proofs::ChartRules::rules_of_chart))]
pub fn of_charts(chart: &Chart)
    ensures { Rules (graph_of chart.now.nodes.items chart.now.edges.items) }
{}

// A law of every chart that exists, every opening that is not refused, and every list of calls since, refused ones among them,
// by any policy (`LawOfRuns`). The account knows only the calls, their answers and the buffers, and the case is as the account has it.
// Each call is answered as the rules say of the account. A turn has the event that the account finds, and is idle just if it finds none.
// It takes only enabled copies, which can leave together, and leaves out an enabled copy only where taken copies that come no later use
// up a source of it, by the ranks just before the turn; the policy is told of exactly the edges taken, in order. Over the whole list each
// node has as many tokens as taken edges entered it less those that left it, the first node one more; each token of an action node has an
// open order or a waiting report, or is finished; the open orders are those given out and not reported; each event that was put waits or
// was answered; the facts and the moment are those told and ticked last; and each timed edge has as many clocks as it is relevant.
// Two such logs of the same calls since the same opening, with the same policy before each call, have the same event and the same edges
// at each turn (`Decides`). On every sound case, and each case of a run is sound, each call has an answer (`GoesOn`).
pub fn of_runs<P: Policy>(chart: &Chart)
    ensures obeyed { LawOfRuns (graph_of chart.now.nodes.items chart.now.edges.items) P.rank P.moves }
    ensures decides { Decides P.rank P.moves }
    ensures goes_on { GoesOn (graph_of chart.now.nodes.items chart.now.edges.items) }
{
    of_charts(chart);
}
