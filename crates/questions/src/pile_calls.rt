//! Questions about a pile that the set stands in, as calls.
ghost use Rattle.roll.specs.Roll as rolls;
ghost use Rattle.runs.specs.Asks as asked;

use super::piles::{Asker, Pile};
use acts::{Acts, indices_of};
use bitset::BitSet;
use operands::bitset_interface::{LevelMasksIterExt, contains};
use runs::calls::Call;
use view::View;

// Whether a pile has an index.
#[derive(Clone, Copy)]
struct Has(usize);

impl Asker for Has {
    type Answer = bool;

    ghost wants = { λ h M. asked.Said (rolls.Told (M h.0)) };

    ghost shown = { λ a. asked.Said (rolls.Told a) };

    fn ask<T: LevelMasksIterExt + Drop>(self, pile: T) -> bool {
        contains(&pile, self.0)
    }
}

/// Asks whether a pile that the set stands in has an index.
#[derive(Clone, Copy)]
pub struct InPile<P> {
    pub pile: P,
    pub index: usize,
}

impl<P: Pile> Call for InPile<P> {
    type Answer = bool;

    ghost asks = { λ c. asked.PileHas (P.Pile.fill c.pile) c.index };

    ghost shown = { λ a. asked.Said (rolls.Told a) };

    fn on(self, set: &mut BitSet<'_>) -> bool {
        let InPile { pile, index } = self;
        pile.with(View::new(set), Has(index))
    }
}

// A walk over a pile's indices.
#[derive(Clone, Copy)]
struct Walks<A>(A);

impl<A: Acts<usize>> Asker for Walks<A> {
    type Answer = A::Answers;

    ghost wants = { λ w M. asked.Listed (asked.index_answers M (A.Acts.acts w.0)) };

    ghost shown = { λ a. asked.Listed (A.Acts.shown a) };

    fn ask<T: LevelMasksIterExt + Drop>(self, pile: T) -> A::Answers {
        let Walks(acts) = self;
        indices_of(pile, acts)
    }
}

/// Walks over the indices of a pile that the set stands in.
#[derive(Clone, Copy)]
pub struct PileWalk<P, A> {
    pub pile: P,
    pub acts: A,
}

impl<P: Pile, A: Acts<usize>> Call for PileWalk<P, A> {
    type Answer = A::Answers;

    ghost asks = { λ c. asked.PileIndices (P.Pile.fill c.pile) (A.Acts.acts c.acts) };

    ghost shown = { λ a. asked.Listed (A.Acts.shown a) };

    fn on(self, set: &mut BitSet<'_>) -> A::Answers {
        let PileWalk { pile, acts } = self;
        pile.with(View::new(set), Walks(acts))
    }
}
