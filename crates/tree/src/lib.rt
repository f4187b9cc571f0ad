//! The three levels of the set: one level-0 block over a pool of level-1 blocks over a pool of words.
#![tactic(auto)]

ghost use Rattle.std.specs.Prelude.{◌≡◌, ℕ};
ghost use Rattle.pool.specs.Kinds.{data_kind, level1_kind};
ghost use Rattle.pool.specs.Levels.{Fresh};
ghost use Rattle.tree.specs.Trees.{slots1, slots2, word, group_count, block_count, Sound};
ghost use Rattle.tree.specs.Slots.{Stands};

use pool::block::Block;
use pool::level::Level;

mod inserts;
mod reads;
mod removes;

/// Which of the 64 groups are there, and the slots of their level-1 blocks; slot 0 stands for none, as in those blocks.
/// No generic type with `Block`: this one is written in its tree, the other through its pool, and no function takes both.
#[derive(Clone, Copy)]
pub struct Level0Block {
    mask: u64,
    slots: [u8; 64],
}

/// 64 * 64 words, of which only those above 0 take a slot.
// Its functions ask for `Sound` or `Shape`, and no ghost field says it: between two steps of a change a tree is not
// sound, within a step it has not even its shape (a pool is written before the block that names its slot), and those
// steps are functions over this type. `BitSet`, whose calls are whole changes, says it by its type.
// (i, j) are two numbers and a clause `place`: as a struct each contract would name both through it, some four times.
#[derive(Drop)]
pub struct Tree<'a> {
    level0: Level0Block,
    level1: Level<'a, Block>,
    data: Level<'a, u64>,
}

impl<'a> Tree<'a> {
    /// A tree whose words are all 0, over two new pools.
    pub fn new(level1: Level<'a, Block>, data: Level<'a, u64>) -> Tree<'a>
        requires level1 { Fresh level1_kind level1 }
        requires words { Fresh data_kind «data» }
        ensures sound { Sound result }
        ensures empty { (i j : ℕ) → word result i j ≡ 0 }
        ensures pools { (result.level1 ≡ level1.entry) × (result.«data» ≡ «data».entry) }
    {
        Tree {
            level0: Level0Block {
                mask: 0,
                slots: [0; 64],
            },
            level1,
            data,
        }
    }

    /// How many groups and how many blocks are not empty: the slots that each pool holds.
    pub fn used(&self) -> (usize, usize)
        requires { Sound self.now }
        ensures groups { result.0 ≡ group_count self.now }
        ensures blocks { result.1 ≡ block_count self.now }
    {
        (self.level1.held_blocks(), self.data.held_blocks())
    }

    /// How many slots each pool has beside slot 0: for groups, and for blocks.
    pub fn slots(&self) -> (usize, usize)
        requires { Sound self.now }
        ensures groups { result.0 ≡ slots1 self.now }
        ensures blocks { result.1 ≡ slots2 self.now }
    {
        (self.level1.size() - 1, self.data.size() - 1)
    }

    /// Does nothing: its contract says what becomes of each slot of a sound tree.
    pub fn stands(&self)
        requires sound { Sound self.now }
        ensures { Stands self.now }
    {}
}
