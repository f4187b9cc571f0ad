//! Memory to lend to a set, on the heap, for programs that have one.
#![tactic(auto)]

ghost use Rattle.std.specs.Prelude.{◌≡◌, ◌+◌, ◌-◌, ◌<◌, length, replicate, IfOk};
ghost use Rattle.roll.specs.Roll.{nobody};

use bitset::BitSet;
use pool::block::Block;
use std::alloc::{AllocError, Global};

/// The elements of both pools, each with one more than it has slots, for slot 0.
#[derive(Drop)]
pub struct Memory {
    level1: Vec<Block>,
    words: Vec<u64>,
}

impl Memory {
    ghost use Rattle.bitset.specs.Sets.{roll_of};

    /// Memory for so many groups and blocks, each element as given.
    pub fn new(
        heap: Global,
        groups: u32,
        blocks: u32,
        block: Block,
        word: u64,
    ) -> Result<Memory, AllocError>
        ensures filled { IfOk result (λ m. (m.level1.items ≡ replicate (groups + 1) block) × (m.words.items ≡ replicate (blocks + 1) word)) }
        ensures sizes { IfOk result (λ m. (length m.level1.items ≡ groups + 1) × (length m.words.items ≡ blocks + 1)) }
    {
        Ok(Memory {
            level1: vec![in heap; block; groups as usize + 1]?,
            words: vec![in heap; word; blocks as usize + 1]?,
        })
    }

    /// An empty set over it. That there is a slot 0 is asked, and no ghost field: no proof is made yet of a function that
    /// lends two fields out of a struct that has one.
    pub fn set(&mut self) -> BitSet<'_>
        requires { (0 < length self.old.level1.items) × (0 < length self.old.words.items) }
        ensures { roll_of result ≡ nobody (length self.old.level1.items - 1) (length self.old.words.items - 1) }
    {
        BitSet::over(&mut self.level1, &mut self.words)
    }
}

#[cfg(test)]
mod tests {
    use super::Memory;
    use pool::block::Block;

    #[test]
    fn is_lent(rt: HostRuntime) {
        let block = Block {
            mask: 1,
            slots: [9; 64],
        };
        let Ok(mut memory) = Memory::new(rt.alloc(), 1, 2, block, 7) else {
            panic!(rt; "no memory")
        };
        let mut set = memory.set();
        assert_eq!(rt; set.used(), (0, 0));
        assert!(rt; set.insert(5).is_ok() && set.insert(70).is_ok());
        assert_eq!(rt; set.used(), (1, 2));
        assert!(rt; set.insert(200).is_err());
    }
}
