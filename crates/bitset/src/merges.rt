//! The set united with an operand, or cut to it, in place.
ghost use Rattle.std.specs.Prelude.{◌≡◌, true};
ghost use Rattle.roll.specs.Members.{members};
ghost use Rattle.roll.specs.Roll.{refuses};
ghost use Rattle.roll.specs.Merges.{merge_answer, merge_after, Unite, Intersect};
ghost use Rattle.roll.specs.Answers.{outcome};
ghost use Rattle.tree.specs.Steps.{Lent};
ghost use Rattle.bitset.specs.Sets.{roll_of};

use super::BitSet;
use operands::bitset_interface::{LevelMasks, LevelMasksIterExt};
use roll::Refusal;

impl<'a> BitSet<'a> {
    /// The set gains the operand's members. It is refused only where the union itself does not fit the pools; what
    /// the operand's masks announce in vain takes no slot.
    pub fn unite<X: LevelMasksIterExt>(&mut self, x: &X) -> Result<(), Refusal>
        ensures answer { outcome result ≡ merge_answer (roll_of self.old) (Unite (members (X.LevelMasks.word x.now))) }
        ensures roll { roll_of self.new ≡ merge_after (roll_of self.old) (Unite (members (X.LevelMasks.word x.now))) }
        ensures kept { refuses (outcome result) ≡ true → self.new ≡ self.old }
        ensures lent { Lent self.old.tree self.new.tree }
    {
        x.rules();
        merge::unite(&mut self.tree, x)
    }

    /// The set keeps those of its members that the operand has. It is never refused; the slots of what becomes
    /// empty are freed.
    pub fn intersect<X: LevelMasksIterExt>(&mut self, x: &X)
        ensures roll { roll_of self.new ≡ merge_after (roll_of self.old) (Intersect (members (X.LevelMasks.word x.now))) }
        ensures lent { Lent self.old.tree self.new.tree }
    {
        merge::intersect(&mut self.tree, x)
    }
}
