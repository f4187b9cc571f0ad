//! Any list of nexts and seeks of a walk has one list of answers. The list is a type, so that asking it takes no memory.
#![tactic(auto)]

ghost use Rattle.std.specs.Prelude.{◌≡◌, ℕ, Bool, true, List, [], ◌∷◌, Option};
ghost use Rattle.bits.specs.Places.{Taken};
ghost use Rattle.roll.specs.Members.{members};
ghost use Rattle.acts.specs.Answers.{answers};
ghost use Rattle.acts.specs.Blocks.{announced, reaching, filled};
ghost use Rattle.acts.specs.Same.{SameAnswers};
ghost use Rattle.acts.specs.declared.Action.{Action};
ghost use Rattle.acts.specs.declared.Action.TheVariants.{Next, Seek};
ghost use Rattle.walks.specs.Indices.{listed, from};

use operands::bitset_interface::{LevelMasks, LevelMasksIterExt};
use walks::block_iter::{BlockIter, DataBlock};
use walks::index_iter::IndexIter;

pub mod block_walk;
pub mod index_walk;

/// What is asked of a walk.
#[derive(Clone, Copy)]
pub enum Action {
    Next,
    Seek(usize),
}

/// A walk with seeks over items: indices, or blocks.
pub trait Walk<I> {
    // what it hands out from its start to its end
    ghost all: { Self → List I };

    // what it has yet to hand out
    ghost left: { Self → List I };

    // what a seek to a number leaves of all
    ghost cut: { ℕ → List I → List I };

    /// The first of what is left, or nothing where nothing is left.
    fn step(&mut self) -> Option<I>
        ensures same { all self.new ≡ all self.old }
        ensures taken { Taken (left self.old) result (left self.new) };

    /// Goes to s, forward or back.
    fn seek(&mut self, s: usize)
        ensures same { all self.new ≡ all self.old }
        ensures goes { left self.new ≡ cut s (all self.old) };
}

/// A list of actions, as a type: `ThenNext(ThenSeek { to: 70, rest: ThenNext(Stop) })` is a next, a seek to 70 and a next.
pub trait Acts<I> {
    /// The answers, one for each next.
    type Answers;

    ghost acts: { Self → List Action };

    // the answers as a list
    ghost shown: { Self.Answers → List (Option I) };

    /// Asks the list of a walk.
    fn walk<W: Walk<I>>(self, walk: &mut W) -> Self::Answers
        ensures same { W.Walk.all walk.new ≡ W.Walk.all walk.old }
        ensures says { shown result ≡ answers W.Walk.cut (W.Walk.all walk.old) (W.Walk.left walk.old) (acts self) };
}

/// The list with no action.
#[derive(Clone, Copy)]
pub struct Stop;

impl<I> Acts<I> for Stop {
    type Answers = ();

    ghost acts = { λ _. [] };

    ghost shown = { λ _. [] };

    fn walk<W: Walk<I>>(self, _walk: &mut W) {}
}

/// A next, then the rest.
#[derive(Clone, Copy)]
pub struct ThenNext<R>(pub R);

impl<I, R: Acts<I>> Acts<I> for ThenNext<R> {
    type Answers = (Option<I>, R::Answers);

    ghost acts = { λ a. Next ∷ R.Acts.acts a.0 };

    ghost shown = { λ r. r.0 ∷ R.Acts.shown r.1 };

    fn walk<W: Walk<I>>(self, walk: &mut W) -> (Option<I>, R::Answers) {
        let ThenNext(rest) = self;
        (walk.step(), rest.walk(walk))
    }
}

/// A seek, then the rest.
#[derive(Clone, Copy)]
pub struct ThenSeek<R> {
    pub to: usize,
    pub rest: R,
}

impl<I, R: Acts<I>> Acts<I> for ThenSeek<R> {
    type Answers = R::Answers;

    ghost acts = { λ a. Seek a.to ∷ R.Acts.acts a.rest };

    ghost shown = { λ r. R.Acts.shown r };

    fn walk<W: Walk<I>>(self, walk: &mut W) -> R::Answers {
        let ThenSeek { to, rest } = self;
        walk.seek(to);
        rest.walk(walk)
    }
}

/// The answers of a new walk over the members of an operand: they depend on the members alone.
pub fn indices_of<T: LevelMasksIterExt + Drop, A: Acts<usize>>(set: T, acts: A) -> A::Answers
    ensures { A.Acts.shown result ≡ answers from (listed (members (T.LevelMasks.word set))) (listed (members (T.LevelMasks.word set))) (A.Acts.acts acts) }
{
    let mut walk = IndexIter::new(set);
    acts.walk(&mut walk)
}

/// The answers of a new walk over the blocks of an operand: they depend on its masks and words.
pub fn announced_of<T: LevelMasksIterExt + Drop, A: Acts<DataBlock>>(set: T, acts: A) -> A::Answers
    ensures { A.Acts.shown result ≡ answers reaching (announced (T.LevelMasks.top set) (T.LevelMasks.middle set) (T.LevelMasks.word set)) (announced (T.LevelMasks.top set) (T.LevelMasks.middle set) (T.LevelMasks.word set)) (A.Acts.acts acts) }
{
    let mut walk = BlockIter::new(set);
    acts.walk(&mut walk)
}

/// The same of a trusted operand, whose answers depend on the members alone.
pub fn blocks_of<T: LevelMasksIterExt + Drop, A: Acts<DataBlock>>(set: T, acts: A) -> A::Answers
    requires { T.LevelMasks.trusted ≡ true }
    ensures { A.Acts.shown result ≡ answers reaching (filled (members (T.LevelMasks.word set))) (filled (members (T.LevelMasks.word set))) (A.Acts.acts acts) }
{
    set.rules();
    announced_of(set, acts)
}

/// Does nothing: its contract says that operands with the same members get the same answers.
pub fn same_answers()
    ensures { (p q : ℕ → Bool) → ((n : ℕ) → p n ≡ q n) → (acts : List Action) → SameAnswers p q acts }
{}
