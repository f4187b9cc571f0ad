//! The walk over members, as a walk that lists of actions are asked of.
ghost use Rattle.roll.specs.Members.{members};
ghost use Rattle.walks.specs.Indices.{listed, from};
ghost use Rattle.walks.specs.Left.{numbers_of};

use super::Walk;
use operands::bitset_interface::{LevelMasks, LevelMasksIterExt};
use walks::index_iter::IndexIter;

impl<T: LevelMasksIterExt> Walk<usize> for IndexIter<T> {
    ghost all = { λ w. listed (members (T.LevelMasks.word w.walk.set)) };

    ghost left = { λ w. numbers_of w };

    ghost cut = { from };

    fn step(&mut self) -> Option<usize> {
        self.next()
    }

    fn seek(&mut self, s: usize) {
        self.move_to(s)
    }
}
