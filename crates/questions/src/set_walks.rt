//! Walks over the set, as calls. A block walk is asked of the set alone: what it hands out of a pile depends on the
//! masks too, which may announce empty blocks.
ghost use Rattle.runs.specs.Asks as asked;

use acts::{Acts, blocks_of, indices_of};
use bitset::BitSet;
use runs::calls::Call;
use view::View;
use walks::block_iter::DataBlock;

/// Walks over the set's indices, by a list of nexts and seeks.
#[derive(Clone, Copy)]
pub struct Indices<A>(pub A);

impl<A: Acts<usize>> Call for Indices<A> {
    type Answer = A::Answers;

    ghost asks = { λ c. asked.Indices (A.Acts.acts c.0) };

    ghost shown = { λ a. asked.Listed (A.Acts.shown a) };

    fn on(self, set: &mut BitSet<'_>) -> A::Answers {
        let Indices(acts) = self;
        indices_of(View::new(set), acts)
    }
}

/// Walks over the set's nonempty blocks.
#[derive(Clone, Copy)]
pub struct Blocks<A>(pub A);

impl<A: Acts<DataBlock>> Call for Blocks<A> {
    type Answer = A::Answers;

    ghost asks = { λ c. asked.Blocks (A.Acts.acts c.0) };

    ghost shown = { λ a. asked.Filled (A.Acts.shown a) };

    fn on(self, set: &mut BitSet<'_>) -> A::Answers {
        let Blocks(acts) = self;
        blocks_of(View::new(set), acts)
    }
}
