//! A lazy combination of two operands, which is again an operand.
ghost use Rattle.std.specs.Prelude.{◌≡◌, ℕ, ◌<◌, ◌≤◌, ◌&&◌, nat_lt, MatchOption};
ghost use Rattle.operands.specs.Combined.{within, joined};
ghost use Rattle.roll.specs.Members.{members};

use super::bitset_interface::{LevelMasks, LevelMasksIterExt};
use ops::BitSetOp;

/// An operation over two operands. Nothing is computed until it is read.
#[derive(Clone, Copy)]
pub struct Apply<Op, S1, S2> {
    pub op: Op,
    pub s1: S1,
    pub s2: S2,
}

impl<Op, S1, S2> Apply<Op, S1, S2> {
    /// The combination of two operands.
    pub fn new(op: Op, s1: S1, s2: S2) -> Self
        ensures operation { result.op ≡ op }
        ensures left { result.s1 ≡ s1 }
        ensures right { result.s2 ≡ s2 }
    {
        Apply { op, s1, s2 }
    }
}

impl<Op: BitSetOp, S1: LevelMasks, S2: LevelMasks> LevelMasks for Apply<Op, S1, S2> {
    const TRUSTED: bool = Op::TRUSTED && (S1::TRUSTED && S2::TRUSTED);

    ghost top = { λ s. Op.BitSetOp.masks (S1.LevelMasks.top s.s1) (S2.LevelMasks.top s.s2) };

    ghost middle = { λ s i. within i (Op.BitSetOp.masks (S1.LevelMasks.middle s.s1 i) (S2.LevelMasks.middle s.s2 i)) };

    ghost word = { λ s i j. within i (within j (Op.BitSetOp.words (S1.LevelMasks.word s.s1 i j) (S2.LevelMasks.word s.s2 i j))) };

    ghost trusted = { Op.BitSetOp.TRUSTED && (S1.LevelMasks.trusted && S2.LevelMasks.trusted) };

    fn rules(&self) {
        self.s1.rules();
        self.s2.rules();
    }

    fn is_trusted() -> bool {
        Op::TRUSTED && (S1::is_trusted() && S2::is_trusted())
    }

    fn level0_mask(&self) -> u64 {
        Op::hierarchy_op(self.s1.level0_mask(), self.s2.level0_mask())
    }

    fn level1_mask(&self, i: usize) -> u64 {
        if i < 64 {
            Op::hierarchy_op(self.s1.level1_mask(i), self.s2.level1_mask(i))
        } else {
            0
        }
    }

    fn data_mask(&self, i: usize, j: usize) -> u64 {
        if i < 64 && j < 64 {
            Op::data_op(self.s1.data_mask(i, j), self.s2.data_mask(i, j))
        } else {
            0
        }
    }
}

/// The records of both sides.
#[derive(Clone, Copy)]
pub struct ApplyBlock<P1, P2> {
    left: P1,
    right: P2,
}

/// There is a record of a group below 64 alone.
impl<Op: BitSetOp, S1: LevelMasksIterExt, S2: LevelMasksIterExt> LevelMasksIterExt
    for Apply<Op, S1, S2> {
    type Level1BlockData = Option<ApplyBlock<S1::Level1BlockData, S2::Level1BlockData>>;

    ghost prepared = { λ s i p. MatchOption p (64 ≤ i) (λ b. (i < 64) × S1.LevelMasksIterExt.prepared s.s1 i b.left × S2.LevelMasksIterExt.prepared s.s2 i b.right) };

    fn init_level1_block_data(
        &self,
        i: usize,
    ) -> (
        u64,
        Option<ApplyBlock<S1::Level1BlockData, S2::Level1BlockData>>,
    ) {
        if i >= 64 {
            return (0, None);
        }
        let (m1, left) = self.s1.init_level1_block_data(i);
        let (m2, right) = self.s2.init_level1_block_data(i);
        (Op::hierarchy_op(m1, m2), Some(ApplyBlock { left, right }))
    }

    fn data_mask_from_block_data(
        &self,
        block: &Option<ApplyBlock<S1::Level1BlockData, S2::Level1BlockData>>,
        j: usize,
    ) -> u64 {
        match block {
            Some(b) if j < 64 => Op::data_op(
                self.s1.data_mask_from_block_data(&b.left, j),
                self.s2.data_mask_from_block_data(&b.right, j),
            ),
            _ => 0,
        }
    }
}

/// Does nothing: its contract says that the members of a combination are what the operation makes of the
/// operands' members.
pub fn combines<Op: BitSetOp, S1: LevelMasks, S2: LevelMasks>(s: &Apply<Op, S1, S2>)
    ensures { (n : ℕ) → members (λ i j. within i (within j (Op.BitSetOp.words (S1.LevelMasks.word s.now.s1 i j) (S2.LevelMasks.word s.now.s2 i j)))) n
        ≡ joined Op.BitSetOp.words n (members (S1.LevelMasks.word s.now.s1) n) (members (S2.LevelMasks.word s.now.s2) n) }
{
    s.s1.rules();
    s.s2.rules();
}
