//! The walk over the blocks that an operand's masks announce.
ghost use Rattle.std.specs.Prelude.{◌≡◌, ◌<◌};

use bits::bit_queue::{pop_front, zero_first_n};
use operands::bitset_interface::{LevelMasks, LevelMasksIterExt};

/// A block: its first index, and its data word, which may be 0.
#[derive(Clone, Copy, PartialEq, Eq, Debug)]
pub struct DataBlock {
    pub start_index: usize,
    pub bit_block: u64,
}

/// A walk over blocks: the groups and the places of the present group that are left.
#[derive(Drop)]
pub struct BlockIter<T: LevelMasksIterExt> {
    pub(crate) set: T,
    top: u64,
    i: usize,
    left: u64,
    block: T::Level1BlockData,
    // the record is of group i
    ghost within: { i < 64 },
    ghost prepared: { ∥ T.LevelMasksIterExt.prepared set i block ∥₁ },
}

impl<T: LevelMasksIterExt> BlockIter<T> {
    ghost use Rattle.walks.specs.Left.{pairs_of};
    ghost use Rattle.walks.specs.Pending.{whole, onward, Handed};

    /// A walk over all blocks.
    pub fn new(set: T) -> Self
        ensures same { result.set ≡ set }
        ensures starts { pairs_of result ≡ whole (T.LevelMasks.middle set) (T.LevelMasks.top set) }
    {
        let top = set.level0_mask();
        let (_, block) = set.init_level1_block_data(0);
        BlockIter {
            set,
            top,
            i: 0,
            left: 0,
            block,
        }
    }

    /// The next block, or nothing at the end; a walk that has ended stays so until a seek.
    pub fn next(&mut self) -> Option<DataBlock>
        ensures same { self.new.set ≡ self.old.set }
        ensures handed { Handed (T.LevelMasks.word self.old.set) (pairs_of self.old) result (pairs_of self.new) }
    {
        let j = loop {
            if let Some(j) = pop_front(&mut self.left) {
                break j;
            }
            let i = pop_front(&mut self.top)?;
            let (left, block) = self.set.init_level1_block_data(i);
            self.i = i;
            self.left = left;
            self.block = block;
        };
        let start_index = 4096 * self.i + 64 * j;
        let bit_block = self.set.data_mask_from_block_data(&self.block, j);
        Some(DataBlock {
            start_index,
            bit_block,
        })
    }

    /// Goes on from the block that holds s, or from the first after it; s may lie behind, or past the end.
    pub fn move_to(&mut self, s: usize)
        ensures same { self.new.set ≡ self.old.set }
        ensures onward { pairs_of self.new ≡ onward s (whole (T.LevelMasks.middle self.old.set) (T.LevelMasks.top self.old.set)) }
    {
        let group = s / 4096;
        self.top = zero_first_n(self.set.level0_mask(), group);
        match pop_front(&mut self.top) {
            Some(i) => {
                let (left, block) = self.set.init_level1_block_data(i);
                self.i = i;
                self.left = if i == group {
                    zero_first_n(left, s % 4096 / 64)
                } else {
                    left
                };
                self.block = block;
            }
            None => self.left = 0,
        }
    }
}

impl<T: LevelMasksIterExt + Drop> Iterator for BlockIter<T> {
    ghost use Rattle.std.specs.Prelude.{length};
    ghost use Rattle.std.specs.Iterator.{at_most};
    ghost use Rattle.walks.specs.Left.{pairs_of};
    ghost use Rattle.walks.specs.Pending.{Handed};

    type Item = DataBlock;

    ghost next_gives = { λ s r t. (t.set ≡ s.set) × Handed (T.LevelMasks.word s.set) (pairs_of s) r (pairs_of t) };

    ghost remaining = { λ s. at_most (length (pairs_of s)) };

    fn next(&mut self) -> Option<DataBlock> {
        BlockIter::next(self)
    }
}
