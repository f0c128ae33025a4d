// Functions over slots, and over the records in them.
ghost use Rattle.std.specs.Prelude.{◌≡◌, ◌+◌, ◌-◌, ◌<◌, ◌≤◌, length, take, drop, count_by, position, slice_index_or};
ghost use Rattle.std.specs.List.{insert, remove};
ghost use Rattle.bag.specs.Records.{put_in};

use crate::record::{Ranked, Tagged};

// The records: the first `count` slots, or all of them where `count` is past the end.
pub(crate) fn records<R>(slots: &[R], count: usize) -> &[R]
    ensures { result.now ≡ take count slots.now }
{
    &slots[..count.min(slots.len())]
}

// Where the first record of higher rank than `x` stands.
fn find_higher<R: Ranked>(records: &[R], x: &R) -> Option<usize>
    ensures { result ≡ position (R.before x.now) records.now }
{
    records.iter().position(|y| x.ranks_before(y))
}

// Where `x` goes: before the first record of higher rank, and so behind its equals.
#[tactic(auto, using(crate::proofs::Records::put_found))]
pub(crate) fn place<R: Ranked>(records: &[R], x: &R) -> usize
    ensures put { insert records.now result x.now ≡ put_in R.before x.now records.now }
    ensures within { result ≤ length records.now }
{
    find_higher(records, x).unwrap_or(records.len())
}

// Where the first record with the tag stands.
pub(crate) fn find_tag<R: Tagged>(records: &[R], tag: R::Tag) -> Option<usize>
    ensures { result ≡ position (R.tagged tag) records.now }
{
    records.iter().position(|y| y.has_tag(tag))
}

// How many of the records have the tag.
pub(crate) fn tally<R: Tagged>(records: &[R], tag: R::Tag) -> usize
    ensures { result ≡ count_by (R.tagged tag) records.now }
{
    records.iter().filter(|y| y.has_tag(tag)).count()
}

// Puts `x` at `at`, and moves the records from there on by one slot.
pub(crate) fn insert_at<R: Copy>(slots: &mut [R], count: usize, at: usize, x: R)
    requires place { at ≤ count }
    requires room { count < length slots.old }
    ensures held { take (count + 1) slots.new ≡ insert (take count slots.old) at x }
    ensures beyond { drop (count + 1) slots.new ≡ drop (count + 1) slots.old }
{
    slots[count] = x;
    slots[at..count + 1].rotate_right(1);
}

// Takes the record at `at` out, and moves those behind it up by one slot.
pub(crate) fn remove_at<R: Copy>(slots: &mut [R], count: usize, at: usize) -> R
    requires at { at < count }
    requires slots { count ≤ length slots.old }
    ensures found { result ≡ slice_index_or slots.old at result }
    ensures held { take (count - 1) slots.new ≡ remove (take count slots.old) at }
    ensures beyond { drop count slots.new ≡ drop count slots.old }
{
    let x = slots[at];
    slots[at..count].rotate_left(1);
    x
}
