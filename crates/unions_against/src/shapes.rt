//! The piles over three sets, by number, and the merges of a set with one.
ghost use Rattle.std.specs.Prelude.{◌≡◌, ℕ, Bool};
ghost use Rattle.roll.specs.Roll.{Answer};
ghost use Rattle.roll.specs.Answers.{outcome};
ghost use Rattle.roll.specs.Merges as merges;
ghost use Rattle.roll.specs.Merges.{merge_answer};
ghost use Rattle.bitset.specs.Sets.{roll_of};

use bitset::BitSet;
use operands::apply::Apply;
use operands::bitset_interface::{LevelMasks, LevelMasksIterExt};
use ops::{And, Or, Sub, Xor};
use roll::Refusal;
use stored::Visit;
use view::View;

/// A set that is united with a pile.
#[derive(Drop)]
pub struct Unite<'s, 'a>(pub &'s mut BitSet<'a>);

impl Visit for Unite<'_, '_> {
    type Answer = Result<(), Refusal>;

    ghost sees = { λ v M r. outcome r ≡ merge_answer (roll_of v.0.now) (merges.Unite M) };

    fn visit<T: LevelMasksIterExt + Drop>(self, pile: T) -> Result<(), Refusal> {
        let Unite(set) = self;
        set.unite(&pile)
    }
}

/// A set that is cut to a pile, which is never refused.
#[derive(Drop)]
pub struct Intersect<'s, 'a>(pub &'s mut BitSet<'a>);

impl Visit for Intersect<'_, '_> {
    type Answer = Result<(), Refusal>;

    ghost sees = { λ v M r. outcome r ≡ merge_answer (roll_of v.0.now) (merges.Intersect M) };

    fn visit<T: LevelMasksIterExt + Drop>(self, pile: T) -> Result<(), Refusal> {
        let Intersect(set) = self;
        set.intersect(&pile);
        Ok(())
    }
}

/// A visit to the pile of that number over three sets. The stored lines name piles by number, and an enum would be a
/// second list of them; each pile has a type of its own, so no table of values holds them.
pub(super) fn visit_pile<V: Visit>(v: V, pile: usize, sets: [View; 3]) -> V::Answer
    ensures { (M : ℕ → Bool) × V.Visit.sees v M result }
{
    let [a, b, c] = sets;
    let or = Apply::new(Or, a, b);
    let and = Apply::new(And, a, b);
    let xor = Apply::new(Xor, a, b);
    let sub = Apply::new(Sub, a, b);
    match pile {
        0 => v.visit(a),
        1 => v.visit(or),
        2 => v.visit(and),
        3 => v.visit(xor),
        5 => v.visit(Apply::new(Or, and, c)),
        6 => v.visit(Apply::new(And, or, c)),
        7 => v.visit(Apply::new(Xor, sub, c)),
        8 => v.visit(Apply::new(Sub, or, Apply::new(And, b, c))),
        9 => v.visit(Apply::new(Or, or, c)),
        10 => v.visit(Apply::new(Sub, Apply::new(Xor, or, c), Apply::new(And, a, c))),
        11 => v.visit(Apply::new(Or, Apply::new(Xor, and, c), Apply::new(Sub, b, c))),
        _ => v.visit(sub),
    }
}
