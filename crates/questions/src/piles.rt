//! Piles of combinations that the set stands in, at any places and depth, and what is asked of them.
ghost use Rattle.std.specs.Prelude.{◌≡◌, Bool, ℕ};
ghost use Rattle.roll.specs.Members.{members};
ghost use Rattle.operands.specs.Combined.{joined};
ghost use Rattle.runs.specs.Asks.{Reply};

use operands::apply::{Apply, combines};
use operands::bitset_interface::{LevelMasks, LevelMasksIterExt};
use ops::BitSetOp;

/// What is asked of a finished pile. The answer depends on the pile's members alone.
pub trait Asker {
    type Answer;

    ghost wants: { Self → (ℕ → Bool) → Reply };

    ghost shown: { Self.Answer → Reply };

    fn ask<T: LevelMasksIterExt + Drop>(self, pile: T) -> Self::Answer
        ensures { shown result ≡ wants self (members (T.LevelMasks.word pile)) };
}

/// A pile with places for the set. It is built from the inside out: each part hands what it has built on.
pub trait Pile {
    // the members that the pile makes of the set's members
    ghost fill: { Self → (ℕ → Bool) → ℕ → Bool };

    fn with<S: LevelMasksIterExt + Copy, K: Asker>(self, set: S, asker: K) -> K::Answer
        ensures { K.Asker.shown result ≡ K.Asker.wants asker (fill self (members (S.LevelMasks.word set))) };
}

/// The set itself.
#[derive(Clone, Copy)]
pub struct Hole;

impl Pile for Hole {
    ghost fill = { λ _ M. M };

    fn with<S: LevelMasksIterExt + Copy, K: Asker>(self, set: S, asker: K) -> K::Answer {
        asker.ask(set)
    }
}

/// An operand that is not the set.
#[derive(Clone, Copy)]
pub struct Other<X>(pub X);

impl<X: LevelMasksIterExt + Drop> Pile for Other<X> {
    ghost fill = { λ p _. members (X.LevelMasks.word p.0) };

    fn with<S: LevelMasksIterExt + Copy, K: Asker>(self, _set: S, asker: K) -> K::Answer {
        asker.ask(self.0)
    }
}

/// An operation over two piles; the set may stand in both.
#[derive(Clone, Copy)]
pub struct Node<Op, L, R> {
    pub op: Op,
    pub left: L,
    pub right: R,
}

// Once the left side is built: builds the right.
struct LeftBuilt<Op, R, S, K> {
    op: Op,
    right: R,
    set: S,
    asker: K,
}

// Once both sides are built: combines them.
struct BothBuilt<Op, T, K> {
    op: Op,
    left: T,
    asker: K,
}

impl<Op: BitSetOp + Drop, R: Pile, S: LevelMasksIterExt + Copy, K: Asker> Asker
    for LeftBuilt<Op, R, S, K> {
    type Answer = K::Answer;

    ghost wants = { λ b M. K.Asker.wants b.asker (λ n. joined Op.BitSetOp.words n (M n) (R.Pile.fill b.right (members (S.LevelMasks.word b.set)) n)) };

    ghost shown = { K.Asker.shown };

    fn ask<T: LevelMasksIterExt + Drop>(self, pile: T) -> K::Answer {
        let LeftBuilt {
            op,
            right,
            set,
            asker,
        } = self;
        right.with(
            set,
            BothBuilt {
                op,
                left: pile,
                asker,
            },
        )
    }
}

impl<Op: BitSetOp + Drop, T: LevelMasksIterExt + Drop, K: Asker> Asker for BothBuilt<Op, T, K> {
    type Answer = K::Answer;

    ghost wants = { λ b M. K.Asker.wants b.asker (λ n. joined Op.BitSetOp.words n (members (T.LevelMasks.word b.left) n) (M n)) };

    ghost shown = { K.Asker.shown };

    fn ask<U: LevelMasksIterExt + Drop>(self, pile: U) -> K::Answer {
        let BothBuilt { op, left, asker } = self;
        let both = Apply {
            op,
            s1: left,
            s2: pile,
        };
        combines(&both);
        asker.ask(both)
    }
}

impl<Op: BitSetOp + Drop, L: Pile, R: Pile> Pile for Node<Op, L, R> {
    ghost fill = { λ p M n. joined Op.BitSetOp.words n (L.Pile.fill p.left M n) (R.Pile.fill p.right M n) };

    fn with<S: LevelMasksIterExt + Copy, K: Asker>(self, set: S, asker: K) -> K::Answer {
        let Node { op, left, right } = self;
        left.with(
            set,
            LeftBuilt {
                op,
                right,
                set,
                asker,
            },
        )
    }
}
