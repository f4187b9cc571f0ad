//! Bits are added to a word: a slot is taken for its group and for its block where they have none.
ghost use Rattle.std.specs.Prelude.{◌≡◌, ◌+◌, ◌<◌, true, false, length, bit_or, nat_le};
ghost use Rattle.roll.specs.Roll.{refuses};
ghost use Rattle.roll.specs.Answers.{outcome};
ghost use Rattle.tree.specs.Trees.{slots1, slot1, slot2, word, used1, used2, Shape, Sound};
ghost use Rattle.tree.specs.Steps.{Grown, Filled, Put, Lent, groups_with, room};

use super::Tree;
use bits::bit_utils::set_bit;
use pool::block::Block;
use pool::level::Level;
use roll::Refusal;

impl<'a> Tree<'a> {
    // The level-1 slot of group i, which is given one where it has none.
    fn ensure_group(&mut self, i: usize) -> usize
        requires shape { Shape self.old }
        requires place { i < 64 }
        requires room { slot1 self.old i ≡ 0 → used1 self.old + 1 < length self.old.level1.blocks.now }
        ensures grown { Grown self.old self.new i }
        ensures slot { result ≡ slot1 self.new i }
        ensures lent { Lent self.old self.new }
    {
        let b = self.level0.slots[i] as usize;
        if b != 0 {
            return b;
        }
        let Some(b) = self.level1.insert_empty_block() else {
            unreachable()
        };
        self.level0.slots[i] = b as u8;
        self.level0.mask = set_bit(self.level0.mask, i);
        b
    }

    // A data slot for block (i, j), which has none, in the group at slot b.
    fn take_block(&mut self, i: usize, j: usize, b: usize) -> usize
        requires shape { Shape self.old }
        requires place { (i < 64) × (j < 64) }
        requires has { 0 < slot1 self.old i }
        requires group { b ≡ slot1 self.old i }
        requires none { slot2 self.old i j ≡ 0 }
        requires room { used2 self.old + 1 < length self.old.«data».blocks.now }
        ensures filled { Filled self.old self.new i j }
        ensures slot { result ≡ slot2 self.new i j }
        ensures lent { Lent self.old self.new }
    {
        let mask = set_bit(self.level1.at(b).mask, j);
        let Some(c) = self.data.insert_empty_block() else {
            unreachable()
        };
        self.level1.put_place(b, j, mask, c as u16);
        c
    }

    // Whether group i has a slot or can be given one.
    fn group_fits(&self, i: usize) -> bool
        requires sound { Sound self.now }
        requires place { i < 64 }
        ensures { result ≡ nat_le (groups_with self.now i) (slots1 self.now) }
    {
        if self.level0.slots[i] != 0 {
            return true;
        }
        self.level1.held_blocks() + 1 < self.level1.size()
    }

    // Whether block (i, j), which has no slot, can be given one, and its group too.
    fn check_room(&self, i: usize, j: usize) -> Result<(), Refusal>
        requires sound { Sound self.now }
        requires place { (i < 64) × (j < 64) }
        requires none { slot2 self.now i j ≡ 0 }
        ensures { outcome result ≡ room self.now i j }
    {
        if !self.group_fits(i) {
            return Err(Refusal::GroupsFull);
        }
        if self.data.held_blocks() + 1 >= self.data.size() {
            return Err(Refusal::BlocksFull);
        }
        Ok(())
    }

    // Makes word (i, j), which has no slot, the word w.
    fn fill_block(&mut self, i: usize, j: usize, w: u64)
        requires sound { Sound self.old }
        requires place { (i < 64) × (j < 64) }
        requires none { slot2 self.old i j ≡ 0 }
        requires some { 0 < w }
        requires room { refuses (room self.old i j) ≡ false }
        ensures put { Put self.old self.new i j w }
        ensures lent { Lent self.old self.new }
    {
        let b = self.ensure_group(i);
        let c = self.take_block(i, j, b);
        self.data.put(c, w);
    }

    /// Ors w, which is not 0, into word (i, j), for which there is room.
    pub fn join_block(&mut self, i: usize, j: usize, w: u64)
        requires sound { Sound self.old }
        requires place { (i < 64) × (j < 64) }
        requires some { 0 < w }
        requires room { refuses (room self.old i j) ≡ false }
        ensures put { Put self.old self.new i j (bit_or (word self.old i j) w) }
        ensures lent { Lent self.old self.new }
    {
        let c = self.slot(i, j);
        if c == 0 {
            self.fill_block(i, j, w);
            return;
        }
        let here = *self.data.at(c);
        self.data.put(c, here | w);
    }

    /// Ors w, which is not 0, into word (i, j), or refuses where a pool is full and changes nothing.
    pub fn or_block(&mut self, i: usize, j: usize, w: u64) -> Result<(), Refusal>
        requires sound { Sound self.old }
        requires place { (i < 64) × (j < 64) }
        requires some { 0 < w }
        ensures answer { outcome result ≡ room self.old i j }
        ensures put { refuses (outcome result) ≡ false → Put self.old self.new i j (bit_or (word self.old i j) w) }
        ensures kept { refuses (outcome result) ≡ true → self.new ≡ self.old }
        ensures lent { Lent self.old self.new }
    {
        let c = self.slot(i, j);
        if c != 0 {
            let v = *self.data.at(c) | w;
            self.data.put(c, v);
            return Ok(());
        }
        self.check_room(i, j)?;
        self.fill_block(i, j, w);
        Ok(())
    }
}
