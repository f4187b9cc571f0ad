//! Words of 64 bits and the place of an index among them.
#![tactic(auto)]

ghost use Rattle.std.specs.Prelude.{◌≡◌};
ghost use Rattle.bits.specs.Indices.{group, place, offset};

pub mod bit_queue;
pub mod bit_utils;

/// One more than the largest index: 64 groups of 64 blocks of 64 cells.
pub const MAX_CAPACITY: usize = 262144;

/// The group of an index, its block's place in the group, and its bit in the block.
pub fn level_indices(index: usize) -> (usize, usize, usize)
    ensures level0 { result.0 ≡ group index }
    ensures level1 { result.1 ≡ place index }
    ensures bits { result.2 ≡ offset index }
{
    (index / 4096, index % 4096 / 64, index % 64)
}
