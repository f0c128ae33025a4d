// Sequences of calls on a bag, and the law that every such sequence keeps.
#![tactic(auto)]

ghost use Rattle.std.specs.Prelude.{◌≡◌, min, map, length, take, drop};
ghost use Rattle.bag.specs.Held.{held, Framed};
ghost use Rattle.bag_history.specs.History.{asked, Step, Lawful};

use bag::Bag;
use bag::record::{Ranked, Tagged};
use bag::refusal::Refusal;

// What a bag is asked.
#[derive(Clone, Copy, Debug, PartialEq, Eq)]
pub enum Call<R, T> {
    Put(R),
    TakeFirst,
    TakeTag(T),
}

// A call with its answer, whose type goes with the kind of call.
#[derive(Clone, Copy, Debug, PartialEq, Eq)]
pub enum Entry<R, T> {
    Put(R, Result<(), Refusal>),
    TakeFirst(Option<R>),
    TakeTag(T, Option<R>),
}

// Makes one call.
fn make<R: Tagged>(bag: &mut Bag<R>, call: Call<R, R::Tag>) -> Entry<R, R::Tag>
    ensures asked { asked result ≡ call }
    ensures step { Step R.Ranked.before R.tagged (length bag.old.slots.now) (held bag.old) result (held bag.new) }
    ensures framed { Framed bag.old bag.new }
{
    match call {
        Call::Put(x) => Entry::Put(x, bag.put(x)),
        Call::TakeFirst => Entry::TakeFirst(bag.take_first()),
        Call::TakeTag(tag) => Entry::TakeTag(tag, bag.take_tag(tag)),
    }
}

// Makes the calls in their order, as many as the log has entries for, and writes each with its answer into the log.
pub fn run<R: Tagged>(
    bag: &mut Bag<R>,
    calls: &[Call<R, R::Tag>],
    log: &mut [Entry<R, R::Tag>],
) -> usize
    ensures all { result ≡ min (length calls.now) (length log.old) }
    ensures asked { map asked (take result log.new) ≡ take result calls.now }
    ensures rest { drop result log.new ≡ drop result log.old }
    ensures framed { Framed bag.old bag.new }
    ensures law { Lawful R.Ranked.before R.tagged (length bag.old.slots.now) (held bag.old) (take result log.new) (held bag.new) }
{
    let n = calls.len().min(log.len());
    // By index, and no `zip` with `log.iter_mut()`: of a slice so written the check knows the length alone.
    for (i, call) in calls[..n].iter().enumerate() {
        log[i] = make(bag, *call);
    }
    n
}
