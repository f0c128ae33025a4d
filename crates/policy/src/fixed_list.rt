// Ranks that never change.
ghost use Rattle.std.specs.Prelude.{◌≡◌, slice_index};
ghost use Rattle.policy.specs.Ranks.{Ranks};
ghost use Rattle.std.proofs.Common.{lit≤};
ghost use Rattle.policy.specs.RankLaws.{ranks_beyond, ranks_small};

use crate::{Policy, rank_in};

// A list of the rank of each edge, as it was given.
#[derive(Clone, Copy)]
pub struct FixedList {
    ranks: [u32; 64],
    ghost ok: { Ranks 4294967295 ranks },
}

impl FixedList {
    pub fn new(ranks: [u32; 64]) -> FixedList
        ensures { result.ranks ≡ ranks }
    {
        FixedList { ranks }
    }
}

impl Policy for FixedList {
    ghost rank = { λ p e. slice_index p.ranks e };

    ghost moves = { λ p e q. q ≡ p };

    ghost beyond = { λ p. ranks_beyond 4294967295 p.ranks p.ok };

    ghost small = { λ p. ranks_small 4294967295 p.ranks (lit≤ tt) p.ok };

    fn rank(&self, edge: u8) -> u32 {
        rank_in(&self.ranks, edge)
    }

    fn told(&mut self, _edge: u8) {}
}
