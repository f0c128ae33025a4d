// What holds of the clocks of every case, whatever its chart.
ghost use Rattle.model.specs.ClockLaws.{LawsOfFollowing, RingsOnce};

// `follows`: let there be at most 16 timed edges, each relevant at most 64 times and with as many clocks as it is relevant, and let the clocks be in
// order. Where the relevance of the edges falls and then rises, each of them has again as many clocks as it is relevant, no other edge has any, and the
// clocks are in order. They are at most 1,024, also where only the first edges have followed, and with each clock that the next one adds. A fall takes
// an edge's spent clocks first, then those that run, and of each the earlier deadline first; a rise adds clocks that run. The clocks of other edges stay.
// `rings`: let the clocks be in order. What rings is a clock that runs and is due, and no clock that runs has an earlier deadline. It is spent from then
// on, and the others are as they were, so each edge has as many clocks as before. Where no clock that runs is due, nothing rings and nothing changes.
pub fn of_clocks()
    ensures follows { LawsOfFollowing }
    ensures rings { RingsOnce }
{}
