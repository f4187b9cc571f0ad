//! Reading the levels.
ghost use Rattle.std.specs.Prelude.{◌≡◌, ℕ, ◌<◌};
ghost use Rattle.tree.specs.Trees.{node, slot1, slot2, word, Shape};

use super::Tree;
use pool::block::Block;
use pool::level::Level;

impl<'a> Tree<'a> {
    // The data slot of block (i, j); slot 0 where it has none.
    pub(crate) fn slot(&self, i: usize, j: usize) -> usize
        requires shape { Shape self.now }
        requires place { (i < 64) × (j < 64) }
        ensures { result ≡ slot2 self.now i j }
    {
        let b = self.level1.at(self.level0.slots[i] as usize);
        b.slots[j] as usize
    }

    // The mask of group i's level-1 block; 0 where it has none.
    pub(crate) fn middle(&self, i: usize) -> u64
        requires shape { Shape self.now }
        requires place { i < 64 }
        ensures { result ≡ (node self.now i).mask }
    {
        self.level1.at(self.level0.slots[i] as usize).mask
    }

    /// Word (i, j).
    pub fn data_word(&self, i: usize, j: usize) -> u64
        requires shape { Shape self.now }
        requires place { (i < 64) × (j < 64) }
        ensures { result ≡ word self.now i j }
    {
        *self.data.at(self.slot(i, j))
    }

    /// The mask of the nonempty groups.
    pub fn level0_mask(&self) -> u64
        ensures { result ≡ self.now.level0.mask }
    {
        self.level0.mask
    }

    /// The mask of the nonempty blocks of group i; 0 for an i of 64 or more.
    pub fn level1_mask(&self, i: usize) -> u64
        requires { Shape self.now }
        ensures { result ≡ (node self.now i).mask }
    {
        if i < 64 { self.middle(i) } else { 0 }
    }

    /// Word (i, j); 0 for an i or j of 64 or more.
    pub fn data_mask(&self, i: usize, j: usize) -> u64
        requires { Shape self.now }
        ensures { result ≡ word self.now i j }
    {
        if i < 64 && j < 64 {
            self.data_word(i, j)
        } else {
            0
        }
    }

    /// The level-1 slot of group i; slot 0 where it has none.
    pub fn group_slot(&self, i: usize) -> usize
        requires { Shape self.now }
        ensures { result ≡ slot1 self.now i }
    {
        if i < 64 {
            self.level0.slots[i] as usize
        } else {
            0
        }
    }

    /// Word (i, j), where b is the slot of group i; for any other b it is some word, left free.
    pub fn word_at(&self, b: usize, j: usize) -> u64
        requires { Shape self.now }
        ensures { (i : ℕ) → b ≡ slot1 self.now i → result ≡ word self.now i j }
    {
        if j >= 64 {
            return 0;
        }
        if b >= self.level1.size() {
            return 0;
        }
        let c = self.level1.at(b).slots[j] as usize;
        if c >= self.data.size() {
            return 0;
        }
        *self.data.at(c)
    }
}
