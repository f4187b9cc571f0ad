//! One call of a list, as a value: what it asks, and what its answer says.
ghost use Rattle.std.specs.Prelude.{◌≡◌};
ghost use Rattle.roll.specs.Members.{members};
ghost use Rattle.roll.specs.Roll as rolls;
ghost use Rattle.roll.specs.Merges as merges;
ghost use Rattle.roll.specs.Answers.{outcome, found};
ghost use Rattle.tree.specs.Steps.{Lent};
ghost use Rattle.bitset.specs.Sets.{roll_of};
ghost use Rattle.runs.specs.Asks.{Ask, Reply, Ordered, Merged, Said, reply, next};

use bitset::BitSet;
use operands::bitset_interface::{LevelMasks, LevelMasksIterExt};
use roll::Refusal;

/// What may be asked of a set. The answer and the members that are left are those of the roll.
pub trait Call {
    type Answer;

    ghost asks: { Self → Ask };

    ghost shown: { Self.Answer → Reply };

    fn on(self, set: &mut BitSet<'_>) -> Self::Answer
        ensures says { shown result ≡ reply (roll_of set.old) (asks self) }
        ensures roll { roll_of set.new ≡ next (roll_of set.old) (asks self) }
        ensures lent { Lent set.old.tree set.new.tree };
}

/// Inserts an index.
#[derive(Clone, Copy)]
pub struct Insert(pub usize);

impl Call for Insert {
    type Answer = Result<(), Refusal>;

    ghost asks = { λ c. Ordered (rolls.Insert c.0) };

    ghost shown = { λ a. Said (outcome a) };

    fn on(self, set: &mut BitSet<'_>) -> Result<(), Refusal> {
        set.insert(self.0)
    }
}

/// Inserts the one bits of a word, from a start on.
#[derive(Clone, Copy)]
pub struct InsertBlock(pub usize, pub u64);

impl Call for InsertBlock {
    type Answer = Result<(), Refusal>;

    ghost asks = { λ c. Ordered (rolls.InsertBlock c.0 c.1) };

    ghost shown = { λ a. Said (outcome a) };

    fn on(self, set: &mut BitSet<'_>) -> Result<(), Refusal> {
        set.insert_block(self.0, self.1)
    }
}

/// Removes an index.
#[derive(Clone, Copy)]
pub struct Remove(pub usize);

impl Call for Remove {
    type Answer = Result<bool, Refusal>;

    ghost asks = { λ c. Ordered (rolls.Remove c.0) };

    ghost shown = { λ a. Said (found a) };

    fn on(self, set: &mut BitSet<'_>) -> Result<bool, Refusal> {
        set.remove(self.0)
    }
}

/// Asks whether the set has an index.
#[derive(Clone, Copy)]
pub struct Contains(pub usize);

impl Call for Contains {
    type Answer = bool;

    ghost asks = { λ c. Ordered (rolls.Contains c.0) };

    ghost shown = { λ a. Said (rolls.Told a) };

    fn on(self, set: &mut BitSet<'_>) -> bool {
        set.contains(self.0)
    }
}

/// Asks for the numbers of nonempty groups and of nonempty blocks.
#[derive(Clone, Copy)]
pub struct Used;

impl Call for Used {
    type Answer = (usize, usize);

    ghost asks = { λ _. Ordered rolls.Used };

    ghost shown = { λ a. Said (rolls.Counted a.0 a.1) };

    fn on(self, set: &mut BitSet<'_>) -> (usize, usize) {
        set.used()
    }
}

/// Gains the members of an operand.
#[derive(Clone, Copy)]
pub struct Unite<X>(pub X);

impl<X: LevelMasksIterExt + Drop> Call for Unite<X> {
    type Answer = Result<(), Refusal>;

    ghost asks = { λ c. Merged (merges.Unite (members (X.LevelMasks.word c.0))) };

    ghost shown = { λ a. Said (outcome a) };

    fn on(self, set: &mut BitSet<'_>) -> Result<(), Refusal> {
        let Unite(x) = self;
        set.unite(&x)
    }
}

/// Keeps the members that an operand has.
#[derive(Clone, Copy)]
pub struct Intersect<X>(pub X);

impl<X: LevelMasksIterExt + Drop> Call for Intersect<X> {
    type Answer = ();

    ghost asks = { λ c. Merged (merges.Intersect (members (X.LevelMasks.word c.0))) };

    ghost shown = { λ _. Said rolls.Done };

    fn on(self, set: &mut BitSet<'_>) {
        let Intersect(x) = self;
        set.intersect(&x)
    }
}
