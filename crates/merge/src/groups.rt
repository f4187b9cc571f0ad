//! One group of a tree merged with the same group of an operand.
ghost use Rattle.std.specs.Prelude.{◌≡◌, ◌<◌, ◌≤◌, bit_and, bit_or};
ghost use Rattle.tree.specs.Trees.{slots1, slots2, word as word_of, Sound};
ghost use Rattle.merge.specs.Merged.{Merged, in_group, united, groups_in, blocks_in};

use bits::bit_utils::one_bits_iter;
use operands::bitset_interface::{LevelMasks, LevelMasksIterExt};
use tree::Tree;

/// Ors the words of group i of x into the tree's, where there is room for the union with all of x.
pub(crate) fn unite_group<X: LevelMasksIterExt>(tree: &mut Tree<'_>, x: &X, i: usize)
    requires sound { Sound tree.old }
    requires place { i < 64 }
    requires groups { groups_in (united (word_of tree.old) (X.LevelMasks.word x.now)) ≤ slots1 tree.old }
    requires blocks { blocks_in (united (word_of tree.old) (X.LevelMasks.word x.now)) ≤ slots2 tree.old }
    ensures { Merged bit_or (in_group i) (X.LevelMasks.word x.now) tree.old tree.new }
{
    x.rules();
    let (mask, block) = x.init_level1_block_data(i);
    for j in one_bits_iter(mask) {
        let w = x.data_mask_from_block_data(&block, j);
        if w != 0 {
            tree.join_block(i, j, w);
        }
    }
}

/// Ands the words of group i of the tree with x's.
pub(crate) fn intersect_group<X: LevelMasksIterExt>(tree: &mut Tree<'_>, x: &X, i: usize)
    requires sound { Sound tree.old }
    requires place { i < 64 }
    ensures { Merged bit_and (in_group i) (X.LevelMasks.word x.now) tree.old tree.new }
{
    let (_, block) = x.init_level1_block_data(i);
    for j in one_bits_iter(tree.level1_mask(i)) {
        let w = x.data_mask_from_block_data(&block, j);
        let _ = tree.and_block(i, j, w);
    }
}
