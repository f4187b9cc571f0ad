//! How many groups and blocks a union would add to a tree.
ghost use Rattle.std.specs.Prelude.{◌≡◌, ℕ, ◌+◌, ◌-◌, ◌<◌, ◌≤◌, min};
ghost use Rattle.bits.specs.Bit.{bit};
ghost use Rattle.bits.specs.Sums.{some};
ghost use Rattle.roll.specs.Answers.{outcome};
ghost use Rattle.tree.specs.Trees.{row, group_count, block_count, word as word_of, Sound};
ghost use Rattle.merge.specs.Merged.{united, row_in, groups_in, blocks_in, verdict};

use bits::bit_utils::{clear_bit, one_bits_iter};
use operands::bitset_interface::{LevelMasks, LevelMasksIterExt};
use roll::Refusal;
use tree::Tree;

// The places of group i where x has a word above 0 and `but` has no bit. A trusted operand's masks say so; of any
// other one the words are read.
fn filled_places<X: LevelMasksIterExt>(x: &X, i: usize, but: u64) -> u64
    ensures { (j : ℕ) → j < 64 → bit result j ≡ min (some (X.LevelMasks.word x.now i j)) (1 - bit but j) }
{
    x.rules();
    let (mask, block) = x.init_level1_block_data(i);
    let announced = mask & !but;
    if X::is_trusted() {
        return announced;
    }
    let mut filled = announced;
    for j in one_bits_iter(announced) {
        if x.data_mask_from_block_data(&block, j) == 0 {
            filled = clear_bit(filled, j);
        }
    }
    filled
}

// How many groups, none or one, and how many blocks of group i a union with x adds.
fn added<X: LevelMasksIterExt>(tree: &Tree<'_>, x: &X, i: usize) -> (usize, usize)
    requires sound { Sound tree.now }
    requires place { i < 64 }
    ensures groups { result.0 + some (row tree.now i) ≡ some (row_in (united (word_of tree.now) (X.LevelMasks.word x.now)) i) }
    ensures blocks { result.1 + row tree.now i ≡ row_in (united (word_of tree.now) (X.LevelMasks.word x.now)) i }
{
    let here = tree.level1_mask(i);
    let new = filled_places(x, i, here);
    let groups = usize::from(here == 0 && new != 0);
    (groups, new.count_ones() as usize)
}

// The same over all groups.
fn additions<X: LevelMasksIterExt>(tree: &Tree<'_>, x: &X) -> (usize, usize)
    requires sound { Sound tree.now }
    ensures groups { result.0 + group_count tree.now ≡ groups_in (united (word_of tree.now) (X.LevelMasks.word x.now)) }
    ensures blocks { result.1 + block_count tree.now ≡ blocks_in (united (word_of tree.now) (X.LevelMasks.word x.now)) }
{
    x.rules();
    let mut groups = 0;
    let mut blocks = 0;
    for i in one_bits_iter(x.level0_mask()) {
        let (g, b) = added(tree, x, i);
        groups += g;
        blocks += b;
    }
    (groups, blocks)
}

/// Whether the union fits the pools, or which one is full.
pub(crate) fn check_fits<X: LevelMasksIterExt>(tree: &Tree<'_>, x: &X) -> Result<(), Refusal>
    requires sound { Sound tree.now }
    ensures { outcome result ≡ verdict tree.now (X.LevelMasks.word x.now) }
{
    let (groups, blocks) = additions(tree, x);
    let held = tree.used();
    let slots = tree.slots();
    if held.0 + groups > slots.0 {
        return Err(Refusal::GroupsFull);
    }
    if held.1 + blocks > slots.1 {
        return Err(Refusal::BlocksFull);
    }
    Ok(())
}
