//! The sparse coverage set: a set of indices below 262,144 over two lent pools.
#![tactic(auto)]

ghost use Rattle.std.specs.Prelude.{◌≡◌, true, ◌-◌, ◌<◌, ◌≤◌, length, MatchResult};
ghost use Rattle.bits.specs.Indices.{capacity, group, place, offset};
ghost use Rattle.roll.specs.declared.Refusal.TheVariants.{OutOfRange};
ghost use Rattle.roll.specs.Roll.{answer, after, refuses, nobody, Insert, InsertBlock, Remove, Contains, Used, Told, Counted};
ghost use Rattle.roll.specs.Answers.{outcome, found};
ghost use Rattle.pool.specs.Kinds.{data_kind, level1_kind};
ghost use Rattle.pool.specs.Levels.{Fresh};
ghost use Rattle.tree.specs.Trees.{Sound};
ghost use Rattle.tree.specs.Steps.{Lent};
ghost use Rattle.tree.specs.Slots.{Stands};

use bits::bit_utils::{clear_bit, get_bit, set_bit};
use bits::{MAX_CAPACITY, level_indices};
use pool::block::Block;
use pool::level::Level;
use roll::Refusal;
use tree::Tree;

mod merges;

/// A set of indices. Its memory is two pools: one slot for each nonempty group of 4,096 indices,
/// and one for each nonempty block of 64.
#[derive(Drop)]
pub struct BitSet<'a> {
    tree: Tree<'a>,
    // What every set keeps to; `stands` says what it means for each slot. A field and no model: contracts speak of the
    // tree's fields too, which a view would hide (`stands`, and the clauses `lent` and `kept`, which tie the set before a
    // change to the set after it and so can be no field's fact).
    ghost sound: { ∥ Sound tree ∥₁ },
}

// Where the set has the index, if it can have it.
fn locate(index: usize) -> Result<(usize, usize, usize), Refusal>
    ensures { MatchResult result (λ at. (index < capacity) × (at.0 ≡ group index) × (at.1 ≡ place index) × (at.2 ≡ offset index)) (λ e. (capacity ≤ index) × (e ≡ OutOfRange)) }
{
    if index < MAX_CAPACITY {
        Ok(level_indices(index))
    } else {
        Err(Refusal::OutOfRange)
    }
}

impl<'a> BitSet<'a> {
    ghost use Rattle.bitset.specs.Sets.{roll_of, slots_of};

    /// An empty set over two new pools. It is never refused.
    pub fn new(level1: Level<'a, Block>, data: Level<'a, u64>) -> BitSet<'a>
        requires level1 { Fresh level1_kind level1 }
        requires words { Fresh data_kind «data» }
        ensures roll { roll_of result ≡ nobody (slots_of level1.entry) (slots_of «data».entry) }
        ensures pools { (result.tree.level1 ≡ level1.entry) × (result.tree.«data» ≡ «data».entry) }
    {
        let tree = Tree::new(level1, data);
        BitSet { tree }
    }

    /// An empty set over two lent slices, whatever they hold. Two slices and no struct of both: it would be taken apart at once.
    pub fn over(level1: &'a mut [Block], data: &'a mut [u64]) -> BitSet<'a>
        requires level1 { 0 < length level1.old }
        requires words { 0 < length «data».old }
        ensures roll { roll_of result ≡ nobody (length level1.old - 1) (length «data».old - 1) }
        ensures lent { (result.tree.level1.blocks.ghost_name ≡ level1.entry.ghost_name) × (result.tree.«data».blocks.ghost_name ≡ «data».entry.ghost_name) }
    {
        BitSet::new(Level::new(level1), Level::new(data))
    }

    /// The set gains the index.
    pub fn insert(&mut self, index: usize) -> Result<(), Refusal>
        ensures answer { outcome result ≡ answer (roll_of self.old) (Insert index) }
        ensures roll { roll_of self.new ≡ after (roll_of self.old) (Insert index) }
        ensures kept { refuses (outcome result) ≡ true → self.new ≡ self.old }
        ensures lent { Lent self.old.tree self.new.tree }
    {
        let (i, j, k) = locate(index)?;
        self.tree.or_block(i, j, set_bit(0, k))
    }

    /// The set gains start + k for each one bit k of the word.
    pub fn insert_block(&mut self, start: usize, word: u64) -> Result<(), Refusal>
        ensures answer { outcome result ≡ answer (roll_of self.old) (InsertBlock start word) }
        ensures roll { roll_of self.new ≡ after (roll_of self.old) (InsertBlock start word) }
        ensures kept { refuses (outcome result) ≡ true → self.new ≡ self.old }
        ensures lent { Lent self.old.tree self.new.tree }
    {
        if word == 0 {
            return Ok(());
        }
        if start % 64 != 0 {
            return Err(Refusal::OffBoundary);
        }
        if start >= MAX_CAPACITY - 64 {
            return Err(Refusal::OutOfRange);
        }
        let (i, j, _) = level_indices(start);
        self.tree.or_block(i, j, word)
    }

    /// Whether the index was there; the set loses it.
    pub fn remove(&mut self, index: usize) -> Result<bool, Refusal>
        ensures answer { found result ≡ answer (roll_of self.old) (Remove index) }
        ensures roll { roll_of self.new ≡ after (roll_of self.old) (Remove index) }
        ensures kept { refuses (found result) ≡ true → self.new ≡ self.old }
        ensures lent { Lent self.old.tree self.new.tree }
    {
        let (i, j, k) = locate(index)?;
        let old = self.tree.and_block(i, j, clear_bit(u64::MAX, k));
        Ok(get_bit(old, k))
    }

    /// Whether the set has the index; any index may be asked.
    pub fn contains(&self, index: usize) -> bool
        ensures { Told result ≡ answer (roll_of self.now) (Contains index) }
    {
        match locate(index) {
            Ok((i, j, k)) => get_bit(self.tree.data_word(i, j), k),
            Err(_) => false,
        }
    }

    /// The numbers of nonempty groups and of nonempty blocks.
    pub fn used(&self) -> (usize, usize)
        ensures { Counted result.0 result.1 ≡ answer (roll_of self.now) Used }
    {
        self.tree.used()
    }

    /// Does nothing: its contract says what becomes of each slot of both pools.
    pub fn stands(&self)
        ensures { Stands self.now.tree }
    {
        self.tree.stands();
    }

    /// The levels, to read.
    pub fn tree(&self) -> &Tree<'a>
        ensures same { result.now ≡ self.now.tree }
        ensures sound { Sound result.now }
    {
        &self.tree
    }
}
