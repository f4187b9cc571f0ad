//! A borrowed operand is an operand.
use super::bitset_interface::{LevelMasks, LevelMasksIterExt};

impl<T: LevelMasks> LevelMasks for &T {
    const TRUSTED: bool = T::TRUSTED;

    ghost top = { λ s. T.LevelMasks.top s.now };

    ghost middle = { λ s. T.LevelMasks.middle s.now };

    ghost word = { λ s. T.LevelMasks.word s.now };

    ghost trusted = { T.LevelMasks.trusted };

    fn rules(&self) {
        (**self).rules();
    }

    fn is_trusted() -> bool {
        T::is_trusted()
    }

    fn level0_mask(&self) -> u64 {
        (**self).level0_mask()
    }

    fn level1_mask(&self, i: usize) -> u64 {
        (**self).level1_mask(i)
    }

    fn data_mask(&self, i: usize, j: usize) -> u64 {
        (**self).data_mask(i, j)
    }
}

impl<T: LevelMasksIterExt> LevelMasksIterExt for &T {
    type Level1BlockData = T::Level1BlockData;

    ghost prepared = { λ s. T.LevelMasksIterExt.prepared s.now };

    fn init_level1_block_data(&self, i: usize) -> (u64, T::Level1BlockData) {
        (**self).init_level1_block_data(i)
    }

    fn data_mask_from_block_data(&self, block: &T::Level1BlockData, j: usize) -> u64 {
        (**self).data_mask_from_block_data(block, j)
    }
}
