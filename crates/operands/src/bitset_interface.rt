//! The two interfaces of an operand, and membership.
ghost use Rattle.std.specs.Prelude.{◌≡◌, ℕ, Bool};
ghost use Rattle.operands.specs.Ruled.{Ruled};
ghost use Rattle.roll.specs.Members.{members};

use bits::bit_utils::get_bit;
use bits::{MAX_CAPACITY, level_indices};

/// An operand: index (i, j, k) is a member when bit k of data word (i, j) is 1.
/// An i or j of 64 or more reads as the zero word. What an operand's readings rely on, its type says.
pub trait LevelMasks {
    /// Whether the masks announce nothing in vain.
    const TRUSTED: bool;

    ghost top: { Self → ℕ };

    ghost middle: { Self → ℕ → ℕ };

    ghost word: { Self → ℕ → ℕ → ℕ };

    ghost trusted: { Bool };

    /// Does nothing: its contract says the cover rule and, where it is owed, the trust rule. A law of the trait would
    /// speak of every number in a field, also of those that no word holds.
    fn rules(&self)
        ensures { Ruled trusted (top self.now) (middle self.now) (word self.now) };

    /// The constant, as a value that a contract can name: a constant takes no clause in an impl that has a lifetime.
    fn is_trusted() -> bool
        ensures { result ≡ trusted };

    fn level0_mask(&self) -> u64
        ensures { result ≡ top self.now };

    fn level1_mask(&self, i: usize) -> u64
        ensures { result ≡ middle self.now i };

    fn data_mask(&self, i: usize, j: usize) -> u64
        ensures { result ≡ word self.now i j };
}

/// Prepared reading: a group is looked up once, then its words are read by place.
pub trait LevelMasksIterExt: LevelMasks {
    type Level1BlockData: Copy;

    // the record is one that preparing at i makes
    ghost prepared: { Self → ℕ → Self.Level1BlockData → Type 0 };

    /// Middle word i, and a record of group i.
    fn init_level1_block_data(&self, i: usize) -> (u64, Self::Level1BlockData)
        ensures mask { result.0 ≡ Self.LevelMasks.middle self.now i }
        ensures made { prepared self.now i result.1 };

    /// Data word (i, j), by the record of group i. Of a record from elsewhere the answer is some word, left free.
    fn data_mask_from_block_data(&self, block: &Self::Level1BlockData, j: usize) -> u64
        ensures { (i : ℕ) → prepared self.now i block.now → result ≡ Self.LevelMasks.word self.now i j };
}

/// Whether an operand has the index; any index may be asked. The test of the range is the set's too, which answers a
/// refusal by it; here there is none to answer.
pub fn contains<S: LevelMasks>(s: &S, index: usize) -> bool
    ensures { result ≡ members (S.LevelMasks.word s.now) index }
{
    if index >= MAX_CAPACITY {
        return false;
    }
    let (i, j, k) = level_indices(index);
    get_bit(s.data_mask(i, j), k)
}
