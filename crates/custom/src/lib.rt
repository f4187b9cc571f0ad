//! An operand and an operation of a user's own, written against the interfaces alone.
#![tactic(auto)]

ghost use Rattle.std.specs.Prelude.{◌≡◌, ℕ, ◌-◌, ◌^◌, false, bit_or};
ghost use Rattle.custom.specs.Bands.{announced, banded};
ghost use Rattle.custom.specs.Laws.{nor_bitwise, nor_covering};
ghost use Rattle.std.proofs.Common.{rules};

use operands::bitset_interface::{LevelMasks, LevelMasksIterExt};
use ops::BitSetOp;

/// What neither side has. Its answer on two zero words is not zero.
#[derive(Clone, Copy)]
pub struct Nor;

impl BitSetOp for Nor {
    const TRUSTED: bool = false;

    ghost TRUSTED = { false };

    ghost masks = { λ a b. 2 ^ 64 - 1 };

    ghost words = { λ a b. 2 ^ 64 - 1 - bit_or a b };

    ghost masksfit = { Prim.search rules };

    ghost wordsfit = { Prim.search rules };

    ghost bitwise = { nor_bitwise };

    ghost covering = { nor_covering };

    ghost exact = { Prim.search rules };

    fn hierarchy_op(_left: u64, _right: u64) -> u64 {
        u64::MAX
    }

    fn data_op(left: u64, right: u64) -> u64 {
        !(left | right)
    }
}

/// The same word in every block of one group. Its masks announce every block of every group.
#[derive(Clone, Copy)]
pub struct Band {
    pub group: usize,
    pub word: u64,
}

impl Band {
    /// The word of each block.
    pub fn cells(&self) -> u64
        ensures { result ≡ self.now.word }
    {
        self.word
    }
}

impl LevelMasks for Band {
    const TRUSTED: bool = false;

    ghost top = { λ s. 2 ^ 64 - 1 };

    ghost middle = { λ s i. announced i };

    ghost word = { λ s i j. banded s.group s.word i j };

    ghost trusted = { false }; // most of what it announces is not there

    fn rules(&self) {
        let _ = self.cells();
    }

    fn is_trusted() -> bool {
        Self::TRUSTED
    }

    fn level0_mask(&self) -> u64 {
        u64::MAX
    }

    fn level1_mask(&self, i: usize) -> u64 {
        if i < 64 { u64::MAX } else { 0 }
    }

    fn data_mask(&self, i: usize, j: usize) -> u64 {
        if i == self.group && (i < 64 && j < 64) {
            self.word
        } else {
            0
        }
    }
}

impl LevelMasksIterExt for Band {
    type Level1BlockData = usize;

    ghost prepared = { λ s i p. p ≡ i };

    fn init_level1_block_data(&self, i: usize) -> (u64, usize) {
        (self.level1_mask(i), i)
    }

    fn data_mask_from_block_data(&self, block: &usize, j: usize) -> u64 {
        self.data_mask(*block, j)
    }
}
