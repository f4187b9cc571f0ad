//! The walk over the members of an operand.
ghost use Rattle.std.specs.Prelude.{◌≡◌, ◌+◌, ◌≤◌};

use super::block_iter::{BlockIter, DataBlock};
use bits::bit_queue::{pop_front, zero_first_n};
use operands::bitset_interface::{LevelMasks, LevelMasksIterExt};

/// A walk over members: the blocks that are left, and what is left of the present one.
#[derive(Drop)]
pub struct IndexIter<T: LevelMasksIterExt> {
    walk: BlockIter<T>,
    start: usize,
    word: u64,
    // the present block lies within the 64 * 64
    ghost within: { start + 64 ≤ 262144 },
}

impl<T: LevelMasksIterExt> IndexIter<T> {
    ghost use Rattle.bits.specs.Places.{Taken};
    ghost use Rattle.roll.specs.Members.{members};
    ghost use Rattle.walks.specs.Indices.{listed, from, Lists};
    ghost use Rattle.walks.specs.Left.{numbers_of};

    /// A walk over all members.
    pub fn new(set: T) -> Self
        ensures same { result.walk.set ≡ set }
        ensures starts { numbers_of result ≡ listed (members (T.LevelMasks.word set)) }
        ensures lists { Lists (members (T.LevelMasks.word set)) 0 (numbers_of result) }
    {
        set.rules();
        IndexIter {
            walk: BlockIter::new(set),
            start: 0,
            word: 0,
        }
    }

    /// The next member, or nothing at the end; a walk that has ended stays so until a seek.
    pub fn next(&mut self) -> Option<usize>
        ensures same { self.new.walk.set ≡ self.old.walk.set }
        ensures taken { Taken (numbers_of self.old) result (numbers_of self.new) }
    {
        let k = loop {
            if let Some(k) = pop_front(&mut self.word) {
                break k;
            }
            let block = self.walk.next()?;
            self.start = block.start_index;
            self.word = block.bit_block;
        };
        Some(self.start + k)
    }

    /// Goes on from the first member at s or past it; s may lie behind, or past the end.
    pub fn move_to(&mut self, s: usize)
        ensures same { self.new.walk.set ≡ self.old.walk.set }
        ensures onward { numbers_of self.new ≡ from s (listed (members (T.LevelMasks.word self.old.walk.set))) }
        ensures lists { Lists (members (T.LevelMasks.word self.old.walk.set)) s (numbers_of self.new) }
    {
        self.walk.set.rules();
        self.walk.move_to(s);
        match self.walk.next() {
            Some(block) => {
                let start = block.start_index;
                let word = block.bit_block;
                self.start = start;
                self.word = if start == s / 64 * 64 {
                    zero_first_n(word, s % 64)
                } else {
                    word
                };
            }
            None => self.word = 0,
        }
    }
}

impl<T: LevelMasksIterExt + Drop> Iterator for IndexIter<T> {
    ghost use Rattle.std.specs.Prelude.{length};
    ghost use Rattle.std.specs.Iterator.{at_most};
    ghost use Rattle.bits.specs.Places.{Taken};
    ghost use Rattle.walks.specs.Left.{numbers_of};

    type Item = usize;

    ghost next_gives = { λ s r t. (t.walk.set ≡ s.walk.set) × Taken (numbers_of s) r (numbers_of t) };

    ghost remaining = { λ s. at_most (length (numbers_of s)) };

    fn next(&mut self) -> Option<usize> {
        IndexIter::next(self)
    }
}
