// Policies: the order in which edges of a chart are considered.
#![tactic(auto)]

ghost use Rattle.std.specs.Prelude.{◌≡◌, ℕ, ◌^◌, ◌<◌, ◌≤◌, slice_index};
ghost use Rattle.policy.specs.Told.{Told};

pub mod even_hand;
pub mod fixed_list;

// A policy gives every edge a rank; an edge of lower rank is considered first.
// It is told of each edge that was taken, and may then rank the edges in any other way.
pub trait Policy {
    // The rank of each edge.
    ghost rank: { Self → ℕ → ℕ };

    // The policy before, the edge that it is told of, and the policy after.
    ghost moves: { Self → ℕ → Self → Type 0 };

    fn rank(&self, edge: u8) -> u32
        ensures { result ≡ rank self.now edge };

    // The edge was taken.
    fn told(&mut self, edge: u8)
        ensures { moves self.old edge self.new };

    // There are sixty-four edges, and any other number ranks 0.
    ghost beyond: { (p : Self) (e : ℕ) → 64 ≤ e → rank p e ≡ 0 };

    ghost small: { (p : Self) (e : ℕ) → rank p e < 2 ^ 32 };
}

// Tells the policy of each edge in turn.
#[tactic(auto, using(crate::proofs::Tellings::told_more))]
pub fn tell_all<P: Policy>(policy: &mut P, edges: &[u8])
    ensures { Told P.moves policy.old edges.now policy.new }
{
    for &edge in edges {
        policy.told(edge);
    }
}

// The rank that stands in the list for the edge, or 0 where there is none. The two policies share this and the lemmas of `RankLaws`.
// A struct that both hold would be no plainer: each still owes its own laws, and every clause would name the ranks one field deeper.
fn rank_in(ranks: &[u32; 64], edge: u8) -> u32
    ensures { result ≡ slice_index ranks.now edge }
{
    ranks.get(usize::from(edge)).copied().unwrap_or(0)
}
