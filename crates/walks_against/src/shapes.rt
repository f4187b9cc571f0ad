//! The piles that are walked, by number, and the walks themselves.
ghost use Rattle.std.specs.Prelude.{ℕ, Bool, ◌≤◌, length};

use super::lines::{Item, Line};
use acts::Walk;
use operands::apply::Apply;
use operands::bitset_interface::{LevelMasks, LevelMasksIterExt};
use ops::{And, Or, Sub, Xor};
use stored::Visit;
use view::View;
use walks::block_iter::BlockIter;
use walks::index_iter::IndexIter;

// Asks the lines of a walk; how many answers differ.
fn differing<I: Item, W: Walk<I> + Drop>(mut walk: W, lines: &[Line]) -> usize
    ensures { result ≤ length lines.now }
{
    lines
        .iter()
        .filter(|line| match **line {
            Line::Seek(s) => {
                walk.seek(s);
                false
            }
            _ => walk.step() != I::handed(line),
        })
        .count()
}

/// A block walk over a pile, by its lines; how many answers differ.
#[derive(Clone, Copy)]
pub struct Blocks<'l, 't>(pub &'l [Line<'t>]);

impl Visit for Blocks<'_, '_> {
    type Answer = usize;

    ghost sees = { λ v _ differ. differ ≤ length v.0.now };

    fn visit<T: LevelMasksIterExt + Drop>(self, pile: T) -> usize {
        differing(BlockIter::new(pile), self.0)
    }
}

/// An index walk over a pile, by its lines; how many answers differ.
#[derive(Clone, Copy)]
pub struct Indices<'l, 't>(pub &'l [Line<'t>]);

impl Visit for Indices<'_, '_> {
    type Answer = usize;

    ghost sees = { λ v _ differ. differ ≤ length v.0.now };

    fn visit<T: LevelMasksIterExt + Drop>(self, pile: T) -> usize {
        differing(IndexIter::new(pile), self.0)
    }
}

/// A visit to the pile of that number over four sets. The stored lines name piles by number, and an enum would be a
/// second list of them; each pile has a type of its own, so no table of values holds them.
pub(super) fn visit_pile<V: Visit>(v: V, pile: usize, sets: [View; 4]) -> V::Answer
    ensures { (M : ℕ → Bool) × V.Visit.sees v M result }
{
    let [a, b, c, d] = sets;
    let or = Apply::new(Or, a, b);
    let and = Apply::new(And, a, b);
    let xor = Apply::new(Xor, a, b);
    let sub = Apply::new(Sub, a, b);
    match pile {
        0 => v.visit(a),
        1 => v.visit(or),
        2 => v.visit(and),
        3 => v.visit(xor),
        4 => v.visit(sub),
        5 => v.visit(Apply::new(Or, and, c)),
        6 => v.visit(Apply::new(And, or, c)),
        7 => v.visit(Apply::new(Xor, sub, c)),
        8 => v.visit(Apply::new(Sub, xor, c)),
        9 => v.visit(Apply::new(Sub, or, Apply::new(And, b, c))),
        10 => v.visit(Apply::new(Xor, and, Apply::new(Or, c, d))),
        11 => v.visit(Apply::new(And, Apply::new(Sub, or, c), d)),
        12 => v.visit(Apply::new(Or, Apply::new(Xor, and, c), d)),
        _ => v.visit(Apply::new(
            Sub,
            Apply::new(Xor, or, Apply::new(And, c, d)),
            Apply::new(Sub, a, d),
        )),
    }
}
