//! A stored set as an operand.
#![tactic(auto)]

ghost use Rattle.std.specs.Prelude.{◌≡◌, true};
ghost use Rattle.tree.specs.Trees.{node, slot1, word as word_of};

use bitset::BitSet;
use operands::bitset_interface::{LevelMasks, LevelMasksIterExt};

/// A borrowed set, to read and to combine.
#[derive(Clone, Copy)]
pub struct View<'s, 'a> {
    set: &'s BitSet<'a>,
}

impl<'s, 'a> View<'s, 'a> {
    /// The set as an operand.
    pub fn new(set: &'s BitSet<'a>) -> View<'s, 'a>
        ensures { result.set.now ≡ set.now }
    {
        View { set }
    }
}

impl<'s, 'a> LevelMasks for View<'s, 'a> {
    const TRUSTED: bool = true;

    ghost top = { λ s. s.set.now.tree.level0.mask };

    ghost middle = { λ s i. (node s.set.now.tree i).mask };

    ghost word = { λ s. word_of s.set.now.tree };

    ghost trusted = { true };

    fn rules(&self) {
        let _ = self.set.tree().level0_mask();
    }

    fn is_trusted() -> bool
        ensures { result ≡ true }
    {
        Self::TRUSTED
    }

    fn level0_mask(&self) -> u64 {
        self.set.tree().level0_mask()
    }

    fn level1_mask(&self, i: usize) -> u64 {
        self.set.tree().level1_mask(i)
    }

    fn data_mask(&self, i: usize, j: usize) -> u64 {
        self.set.tree().data_mask(i, j)
    }
}

impl<'s, 'a> LevelMasksIterExt for View<'s, 'a> {
    type Level1BlockData = usize;

    ghost prepared = { λ s i p. p ≡ slot1 s.set.now.tree i };

    fn init_level1_block_data(&self, i: usize) -> (u64, usize) {
        let tree = self.set.tree();
        (tree.level1_mask(i), tree.group_slot(i))
    }

    fn data_mask_from_block_data(&self, block: &usize, j: usize) -> u64 {
        self.set.tree().word_at(*block, j)
    }
}
