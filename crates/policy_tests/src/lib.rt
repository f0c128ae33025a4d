// Both policies at the limits of edges and ranks.
#![tactic(auto)]

#[cfg(test)]
mod tests {
    use policy::even_hand::EvenHand;
    use policy::fixed_list::FixedList;
    use policy::{Policy, tell_all};

    const ASKED: [u8; 4] = [0, 63, 64, 255];

    const TAKEN: [u8; 7] = [0, 63, 0, 64, 255, 1, 0];

    // The ranks of the edges asked for, once the policy was told of the edges taken.
    fn ranks_after<P: Policy>(policy: &mut P, taken: &[u8], asked: [u8; 4]) -> [u32; 4] {
        tell_all(policy, taken);
        asked.map(|edge| policy.rank(edge))
    }

    #[test]
    fn fixed_list_stays(rt: HostRuntime) {
        let mut ranks = [7; 64];
        ranks[0] = u32::MAX;
        let mut list = FixedList::new(ranks);
        assert_eq!(rt; ranks_after(&mut list, &[], ASKED), [u32::MAX, 7, 0, 0]);
        assert_eq!(rt; ranks_after(&mut list, &TAKEN, ASKED), [u32::MAX, 7, 0, 0]);
    }

    #[test]
    fn even_hand_counts(rt: HostRuntime) {
        let mut hand = EvenHand::new();
        assert_eq!(rt; ranks_after(&mut hand, &[], ASKED), [0, 0, 0, 0]);
        assert_eq!(rt; ranks_after(&mut hand, &TAKEN, ASKED), [3, 1, 0, 0]);
        assert_eq!(rt; hand.rank(1), 1);
        assert_eq!(rt; hand.rank(2), 0);
    }

    #[test]
    fn even_hand_stops(rt: HostRuntime) {
        let mut hand = EvenHand::new();
        for _ in 0..999_999_999u32 {
            hand.told(63);
        }
        assert_eq!(rt; hand.rank(63), 999_999_999);
        hand.told(63);
        assert_eq!(rt; hand.rank(63), 1_000_000_000);
        hand.told(63);
        assert_eq!(rt; hand.rank(63), 1_000_000_000);
    }
}
