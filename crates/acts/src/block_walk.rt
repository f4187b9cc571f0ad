//! The walk over blocks, as a walk that lists of actions are asked of.
ghost use Rattle.acts.specs.Blocks.{block_list, announced, reaching};
ghost use Rattle.walks.specs.Left.{pairs_of};

use super::Walk;
use operands::bitset_interface::{LevelMasks, LevelMasksIterExt};
use walks::block_iter::{BlockIter, DataBlock};

impl<T: LevelMasksIterExt> Walk<DataBlock> for BlockIter<T> {
    ghost all = { λ w. announced (T.LevelMasks.top w.set) (T.LevelMasks.middle w.set) (T.LevelMasks.word w.set) };

    ghost left = { λ w. block_list (T.LevelMasks.word w.set) (pairs_of w) };

    ghost cut = { reaching };

    fn step(&mut self) -> Option<DataBlock> {
        self.next()
    }

    fn seek(&mut self, s: usize) {
        self.move_to(s)
    }
}
