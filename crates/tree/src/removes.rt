//! Bits are taken from a word: its slot is freed where none is left, and its group's where no word is left.
ghost use Rattle.std.specs.Prelude.{◌≡◌, ◌<◌, bit_and};
ghost use Rattle.tree.specs.Trees.{slot1, node, slot2, word, Shape, Sound};
ghost use Rattle.tree.specs.Steps.{Cleared, Shrunk, Put, Lent};

use super::Tree;
use bits::bit_utils::clear_bit;
use pool::block::Block;
use pool::level::Level;

impl<'a> Tree<'a> {
    // Frees the data slot of block (i, j).
    fn drop_block(&mut self, i: usize, j: usize)
        requires shape { Shape self.old }
        requires place { (i < 64) × (j < 64) }
        requires has { 0 < slot2 self.old i j }
        ensures cleared { Cleared self.old self.new i j }
        ensures lent { Lent self.old self.new }
    {
        let c = self.slot(i, j);
        let mask = clear_bit(self.middle(i), j);
        self.data.remove_empty_block(c);
        self.level1
            .put_place(self.level0.slots[i] as usize, j, mask, 0);
    }

    // Frees the level-1 slot of group i, whose mask is 0.
    fn drop_group(&mut self, i: usize)
        requires shape { Shape self.old }
        requires place { i < 64 }
        requires has { 0 < slot1 self.old i }
        requires bare { (node self.old i).mask ≡ 0 }
        ensures shrunk { Shrunk self.old self.new i }
        ensures lent { Lent self.old self.new }
    {
        self.level1
            .remove_empty_block(self.level0.slots[i] as usize);
        self.level0.slots[i] = 0;
        self.level0.mask = clear_bit(self.level0.mask, i);
    }

    // Makes word (i, j), which has a slot, 0.
    fn clear_block(&mut self, i: usize, j: usize)
        requires sound { Sound self.old }
        requires place { (i < 64) × (j < 64) }
        requires has { 0 < slot2 self.old i j }
        ensures put { Put self.old self.new i j 0 }
        ensures lent { Lent self.old self.new }
    {
        self.drop_block(i, j);
        let left = self.middle(i);
        if left == 0 {
            self.drop_group(i);
        }
    }

    /// Ands word (i, j) with w, and answers the word that was there.
    pub fn and_block(&mut self, i: usize, j: usize, w: u64) -> u64
        requires sound { Sound self.old }
        requires place { (i < 64) × (j < 64) }
        ensures old { result ≡ word self.old i j }
        ensures put { Put self.old self.new i j (bit_and (word self.old i j) w) }
        ensures lent { Lent self.old self.new }
    {
        let c = self.slot(i, j);
        if c == 0 {
            return 0;
        }
        let old = *self.data.at(c);
        let v = old & w;
        if v != 0 {
            self.data.put(c, v);
            return old;
        }
        self.clear_block(i, j);
        old
    }
}
