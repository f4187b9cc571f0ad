//! A tree merged with an operand, in place: united with it, or cut to it.
#![tactic(auto)]

ghost use Rattle.std.specs.Prelude.{◌≡◌, true, false, bit_and, bit_or};
ghost use Rattle.roll.specs.Roll.{refuses};
ghost use Rattle.roll.specs.Answers.{outcome};
ghost use Rattle.tree.specs.Trees.{Sound};
ghost use Rattle.tree.specs.Steps.{Lent};
ghost use Rattle.merge.specs.Merged.{Merged, verdict, all};

use operands::bitset_interface::{LevelMasks, LevelMasksIterExt};
use roll::Refusal;
use tree::Tree;

mod additions;
mod groups;

use additions::check_fits;
use bits::bit_utils::one_bits_iter;
use groups::{intersect_group, unite_group};

/// Ors every word of x into the tree's, or refuses where the union has more groups or blocks than the pools have
/// slots, and changes nothing.
pub fn unite<X: LevelMasksIterExt>(tree: &mut Tree<'_>, x: &X) -> Result<(), Refusal>
    requires { Sound tree.old }
    ensures answer { outcome result ≡ verdict tree.old (X.LevelMasks.word x.now) }
    ensures words { refuses (outcome result) ≡ false → Merged bit_or all (X.LevelMasks.word x.now) tree.old tree.new }
    ensures kept { refuses (outcome result) ≡ true → tree.new ≡ tree.old }
    ensures lent { Lent tree.old tree.new }
{
    x.rules();
    check_fits(tree, x)?;
    for i in one_bits_iter(x.level0_mask()) {
        unite_group(tree, x, i);
    }
    Ok(())
}

/// Ands every word of the tree with x's; what becomes empty is freed.
pub fn intersect<X: LevelMasksIterExt>(tree: &mut Tree<'_>, x: &X)
    requires { Sound tree.old }
    ensures words { Merged bit_and all (X.LevelMasks.word x.now) tree.old tree.new }
{
    for i in one_bits_iter(tree.level0_mask()) {
        intersect_group(tree, x, i);
    }
}
