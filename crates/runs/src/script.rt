//! A list of calls as a type: `Finish`, or a first call and the rest.
ghost use Rattle.std.specs.Prelude.{◌≡◌, List, [], ◌∷◌};
ghost use Rattle.tree.specs.Steps.{Lent};
ghost use Rattle.bitset.specs.Sets.{roll_of};
ghost use Rattle.runs.specs.Asks.{Ask, Reply, replies, leaves};

use super::calls::Call;
use bitset::BitSet;

/// A list of calls. Its answers and what it leaves are those of the roll, call by call.
pub trait Script {
    type Answers;

    ghost asks: { Self → List Ask };

    ghost shown: { Self.Answers → List Reply };

    fn run(self, set: &mut BitSet<'_>) -> Self::Answers
        ensures says { shown result ≡ replies (roll_of set.old) (asks self) }
        ensures roll { roll_of set.new ≡ leaves (roll_of set.old) (asks self) }
        ensures lent { Lent set.old.tree set.new.tree };
}

/// The list with no call.
#[derive(Clone, Copy)]
pub struct Finish;

impl Script for Finish {
    type Answers = ();

    ghost asks = { λ _. [] };

    ghost shown = { λ _. [] };

    fn run(self, _set: &mut BitSet<'_>) {}
}

/// A call, and then the calls of a list.
#[derive(Clone, Copy)]
pub struct Then<C, R> {
    pub first: C,
    pub rest: R,
}

impl<C, R> Then<C, R> {
    /// A call before a list.
    pub fn new(first: C, rest: R) -> Self
        ensures call { result.first ≡ first }
        ensures list { result.rest ≡ rest }
    {
        Then { first, rest }
    }
}

impl<C: Call, R: Script> Script for Then<C, R> {
    type Answers = (C::Answer, R::Answers);

    ghost asks = { λ s. C.Call.asks s.first ∷ R.Script.asks s.rest };

    ghost shown = { λ a. C.Call.shown a.0 ∷ R.Script.shown a.1 };

    fn run(self, set: &mut BitSet<'_>) -> (C::Answer, R::Answers) {
        let Then { first, rest } = self;
        (first.on(set), rest.run(set))
    }
}
