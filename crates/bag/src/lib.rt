// A bag of records over slots that its holder provides.
#![tactic(auto)]

ghost use Rattle.std.specs.Prelude.{◌≡◌, ◌+◌, ◌-◌, ◌<◌, ◌≤◌, true, false, length, take, is_some, is_ok, if◌then◌else◌, count_by, nat_lt, slice_index_or};
ghost use Rattle.std.specs.List.{remove};
ghost use Rattle.bag.specs.Records.{put_in, head_of, tail_of, first_with, without_first};
ghost use Rattle.bag.specs.Leaving.{any, FirstLaw, PutLaw, TakeLaw};
ghost use Rattle.bag.specs.Held.{held, SameBeyond, Framed};

use crate::record::{Ranked, Tagged};
use crate::refusal::Refusal;
use crate::slots::{find_tag, insert_at, place, records, remove_at, tally};

pub mod record;
pub mod refusal;
mod slots;

// The next record to leave, for a holder that has the slots by a shared reference: a `Bag` needs `&mut`.
#[tactic(auto, using(crate::proofs::Leaving::first_law))]
pub fn first<R: Ranked>(slots: &[R], count: usize) -> Option<R>
    ensures found { result ≡ head_of (take count slots.now) }
    ensures law { FirstLaw R.before (take count slots.now) result }
{
    records(slots, count).first().copied()
}

// How many records have the tag, for a holder that has the slots by a shared reference: a `Bag` needs `&mut`.
pub fn count_tag<R: Tagged>(slots: &[R], count: usize, tag: R::Tag) -> usize
    ensures { result ≡ count_by (R.tagged tag) (take count slots.now) }
{
    tally(records(slots, count), tag)
}

// A bag: it keeps records so that the one with the lowest rank leaves first, the earliest put among equals.
// There is no heap: the holder keeps the slots and the count of those that hold records, and lends both for a call.
// The first `count` slots hold the records, the next to leave first; where `count` is past the end, all slots do.
#[derive(Drop)]
pub struct Bag<'a, R> {
    slots: &'a mut [R],
    count: &'a mut usize,
}

impl<'a, R: Ranked> Bag<'a, R> {
    pub fn over(slots: &'a mut [R], count: &'a mut usize) -> Bag<'a, R>
        ensures slots { result.slots.now ≡ slots.old }
        ensures count { result.count.now ≡ count.old }
        ensures same { (result.slots.ghost_name ≡ slots.entry.ghost_name) × (result.count.ghost_name ≡ count.entry.ghost_name) }
    {
        Bag { slots, count }
    }

    // The next record to leave.
    pub fn first(&self) -> Option<R>
        ensures found { result ≡ head_of (held self.now) }
        ensures law { FirstLaw R.before (held self.now) result }
    {
        first(self.slots, *self.count)
    }

    // Puts a record in, behind those whose rank is not higher; refused where no slot is free.
    #[tactic(auto, using(crate::proofs::Leaving::put_law))]
    pub fn put(&mut self, x: R) -> Result<(), Refusal>
        ensures room { is_ok result ≡ nat_lt self.old.count.now (length self.old.slots.now) }
        ensures held { held self.new ≡ (if is_ok result then put_in R.before x (held self.old) else held self.old) }
        ensures count { self.new.count.now ≡ (if is_ok result then self.old.count.now + 1 else self.old.count.now) }
        ensures beyond { SameBeyond self.new.count.now self.old self.new }
        ensures unchanged { is_ok result ≡ false → self.new.slots.now ≡ self.old.slots.now }
        ensures framed { Framed self.old self.new }
        ensures law { is_ok result ≡ true → PutLaw R.before x (held self.old) (held self.new) }
    {
        let n = *self.count;
        if n >= self.slots.len() {
            return Err(Refusal::Full);
        }
        let at = place(self.records(), &x);
        insert_at(self.slots, n, at, x);
        *self.count = n + 1;
        Ok(())
    }

    // Takes the next record to leave. The clauses from `count` to `framed` stand at `take_tag` too: a holder cites each by its name.
    pub fn take_first(&mut self) -> Option<R>
        ensures found { result ≡ head_of (held self.old) }
        ensures held { held self.new ≡ tail_of (held self.old) }
        ensures count { self.new.count.now ≡ (if is_some result then length (held self.old) - 1 else self.old.count.now) }
        ensures fits { self.old.count.now ≤ length self.old.slots.now → self.new.count.now ≡ (if is_some result then self.old.count.now - 1 else self.old.count.now) }
        ensures beyond { SameBeyond (length (held self.old)) self.old self.new }
        ensures unchanged { is_some result ≡ false → self.new.slots.now ≡ self.old.slots.now }
        ensures framed { Framed self.old self.new }
        ensures law { TakeLaw R.before any (held self.old) result (held self.new) }
    {
        if self.records().is_empty() {
            return None;
        }
        Some(self.take_at(0))
    }
}

impl<'a, R: Copy> Bag<'a, R> {
    // The records, the next to leave first.
    fn records(&self) -> &[R]
        ensures { result.now ≡ held self.now }
    {
        records(self.slots, *self.count)
    }

    // Takes the record at `at`.
    fn take_at(&mut self, at: usize) -> R
        requires { at < length (held self.old) }
        ensures found { result ≡ slice_index_or (held self.old) at result }
        ensures held { held self.new ≡ remove (held self.old) at }
        ensures count { self.new.count.now ≡ length (held self.old) - 1 }
        ensures beyond { SameBeyond (length (held self.old)) self.old self.new }
        ensures framed { Framed self.old self.new }
    {
        let n = self.records().len();
        *self.count = n - 1;
        remove_at(self.slots, n, at)
    }
}

impl<'a, R: Tagged> Bag<'a, R> {
    // How many records have the tag.
    pub fn count_tag(&self, tag: R::Tag) -> usize
        ensures { result ≡ count_by (R.tagged tag) (held self.now) }
    {
        count_tag(self.slots, *self.count, tag)
    }

    // Takes the next record to leave among those that have the tag.
    #[tactic(auto, using(crate::proofs::Leaving::takes_tagged))]
    pub fn take_tag(&mut self, tag: R::Tag) -> Option<R>
        ensures found { result ≡ first_with (R.tagged tag) (held self.old) }
        ensures held { held self.new ≡ without_first (R.tagged tag) (held self.old) }
        ensures count { self.new.count.now ≡ (if is_some result then length (held self.old) - 1 else self.old.count.now) }
        ensures fits { self.old.count.now ≤ length self.old.slots.now → self.new.count.now ≡ (if is_some result then self.old.count.now - 1 else self.old.count.now) }
        ensures beyond { SameBeyond (length (held self.old)) self.old self.new }
        ensures unchanged { is_some result ≡ false → self.new.slots.now ≡ self.old.slots.now }
        ensures framed { Framed self.old self.new }
        ensures law { TakeLaw R.Ranked.before (R.tagged tag) (held self.old) result (held self.new) }
    {
        let at = find_tag(self.records(), tag)?;
        Some(self.take_at(at))
    }
}
