//! The kinds of block that a pool can hold.
ghost use Rattle.std.specs.Prelude.{◌≡◌, ℕ, ◌<◌};
ghost use Rattle.pool.specs.Kinds.{Kind, data_kind, level1_kind, with_place};
ghost use Rattle.std.proofs.Common.{rules};

/// A kind of block. The pool keeps a link to the next free block in its first mask word.
pub trait IBlock: Copy {
    ghost kind: { Kind Self };

    fn empty() -> Self
        ensures { result ≡ kind.blank };

    fn link(&self) -> u64
        ensures { result ≡ kind.link self.now };

    fn set_link(&mut self, link: u64)
        ensures { self.new ≡ kind.relink self.old link };

    // a block that a zeroed link makes empty is empty again once any link is written and then zeroed
    ghost again: { (b : Self) (n : ℕ) → kind.relink b 0 ≡ kind.blank → kind.relink (kind.relink b n) 0 ≡ kind.blank };

    // the link that was written is the one that is read
    ghost linked: { (b : Self) (n : ℕ) → kind.link (kind.relink b n) ≡ n };
}

/// A data block: one word, a bit a cell.
impl IBlock for u64 {
    ghost kind = { data_kind };

    ghost again = { Prim.search rules };

    ghost linked = { Prim.search rules };

    fn empty() -> u64 {
        0
    }

    fn link(&self) -> u64 {
        *self // the whole word
    }

    fn set_link(&mut self, link: u64) {
        *self = link;
    }
}

/// A level-1 block: which of its 64 places have a data block, and the slots of those. Slot 0 stands for none, and no
/// `Option`: a slot number has the two bytes of the lent memory, and reading slot 0, which is empty, needs no test. An array, since a block has 64 places
/// and no heap.
#[derive(Clone, Copy)]
pub struct Block {
    pub mask: u64,
    pub slots: [u16; 64],
}

impl IBlock for Block {
    ghost kind = { level1_kind };

    ghost again = { Prim.search rules };

    ghost linked = { Prim.search rules };

    fn empty() -> Block {
        Block {
            mask: 0,
            slots: [0; 64],
        }
    }

    fn link(&self) -> u64 {
        self.mask // the slot numbers stay
    }

    fn set_link(&mut self, link: u64) {
        self.mask = link;
    }
}

/// Writes place k of a level-1 block, and its mask.
pub fn set_place(block: &mut Block, k: usize, mask: u64, slot: u16)
    requires { k < 64 }
    ensures { block.new ≡ with_place block.old k mask slot }
{
    block.slots[k] = slot;
    block.mask = mask;
}
