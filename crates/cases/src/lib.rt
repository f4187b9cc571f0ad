//! Worked cases, run.
#![tactic(auto)]

#[cfg(test)]
mod operands_tests;

#[cfg(test)]
mod tests {
    use bits::bit_queue::zero_first_n;
    use bits::level_indices;
    use bitset::BitSet;
    use pool::level::check_blocks;
    use roll::code;
    use stored::{OLD_BLOCK, OLD_WORD};

    #[test]
    fn places(rt: HostRuntime) {
        assert_eq!(rt; level_indices(130), (0, 2, 2));
        assert_eq!(rt; level_indices(70000), (17, 5, 48));
        assert_eq!(rt; level_indices(262143), (63, 63, 63));
        assert_eq!(rt; zero_first_n(255, 3), 248);
        assert_eq!(rt; zero_first_n(255, 64), 0);
    }

    #[test]
    fn two_groups_three_blocks(rt: HostRuntime) {
        let mut level1 = [OLD_BLOCK; 3];
        let mut words = [OLD_WORD; 4];
        let mut s = BitSet::over(&mut level1, &mut words);
        assert_eq!(rt; code(s.insert(5)), 0);
        assert_eq!(rt; code(s.insert(70)), 0);
        assert_eq!(rt; code(s.insert(5000)), 0);
        assert_eq!(rt; code(s.insert(200)), 4);
        assert_eq!(rt; code(s.insert(9000)), 3);
        assert_eq!(rt; s.used(), (2, 3));
        assert_eq!(rt; s.remove(70), Ok(true));
        assert_eq!(rt; s.remove(70), Ok(false));
        assert_eq!(rt; code(s.insert(200)), 0);
        assert!(rt; s.contains(5) && s.contains(200) && s.contains(5000));
        assert!(rt; !s.contains(70) && !s.contains(9000) && !s.contains(262144));
    }

    #[test]
    fn one_of_each(rt: HostRuntime) {
        let mut level1 = [OLD_BLOCK; 2];
        let mut words = [OLD_WORD; 2];
        let mut s = BitSet::over(&mut level1, &mut words);
        assert_eq!(rt; code(s.insert(262143)), 0);
        assert_eq!(rt; code(s.insert(262144)), 1);
        assert_eq!(rt; s.remove(262143), Ok(true));
        assert_eq!(rt; code(s.insert_block(262016, 3)), 0);
        assert!(rt; s.contains(262016) && s.contains(262017));
        assert_eq!(rt; code(s.insert_block(262080, 1)), 1);
        assert_eq!(rt; code(s.insert_block(262081, 1)), 2);
        assert_eq!(rt; code(s.insert_block(262081, 0)), 0);
        assert_eq!(rt; s.used(), (1, 1));
    }

    #[test]
    fn no_element(rt: HostRuntime) {
        let none: [u64; 0] = [];
        assert_eq!(rt; code(check_blocks(&none)), 5);
        assert_eq!(rt; code(check_blocks(&[1u64])), 0);
    }
}
