// Ranks that count.
ghost use Rattle.std.specs.Prelude.{◌≡◌, replicate, slice_index};
ghost use Rattle.policy.specs.Ranks.{Ranks, Raised, Counted, most};
ghost use Rattle.std.proofs.Common.{lit≤};
ghost use Rattle.policy.specs.RankLaws.{ranks_beyond, ranks_small};

use crate::{Policy, rank_in, tell_all};

const LIMIT: u32 = 1_000_000_000;

// Ranks an edge by how often it was told of it, so that the edges taken least come first. A count stops at 1,000,000,000.
#[derive(Clone, Copy)]
pub struct EvenHand {
    counts: [u32; 64],
    ghost ok: { Ranks most counts },
}

impl EvenHand {
    // No edge was taken yet.
    #[tactic(auto, using(crate::proofs::Tellings::none_taken))]
    pub fn new() -> EvenHand
        ensures { result.counts ≡ replicate 64 0 }
    {
        EvenHand { counts: [0; 64] }
    }
}

impl Policy for EvenHand {
    ghost rank = { λ p e. slice_index p.counts e };

    ghost moves = { λ p e q. Raised p.counts e q.counts };

    ghost beyond = { λ p. ranks_beyond most p.counts p.ok };

    ghost small = { λ p. ranks_small most p.counts (lit≤ tt) p.ok };

    fn rank(&self, edge: u8) -> u32 {
        rank_in(&self.counts, edge)
    }

    fn told(&mut self, edge: u8) {
        // By index, since of `get_mut` std says nothing of what the array then holds: the ghost field could not be shown.
        let i = usize::from(edge);
        if i < self.counts.len() && self.counts[i] < LIMIT {
            self.counts[i] += 1;
        }
    }
}

// Tells the even hand of each edge in turn: a rank is then the number of times, in all, that it was told of the edge.
#[tactic(auto, using(crate::proofs::Tellings::counted_evenly))]
pub fn tell_evenly(hand: &mut EvenHand, edges: &[u8])
    ensures { Counted hand.old.counts edges.now hand.new.counts }
{
    tell_all(hand, edges);
}
