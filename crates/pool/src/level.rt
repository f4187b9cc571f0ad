//! A pool of blocks over a lent slice: slots are taken, freed and taken again.
ghost use Rattle.std.specs.Prelude.{◌≡◌, ℕ, ◌<◌, Bool, true, false, length, if◌then◌else◌, nat_eq, slice_index_or, slice_set};
ghost use Rattle.roll.specs.Roll.{Done, Refused};
ghost use Rattle.roll.specs.Answers.{outcome};
ghost use Rattle.pool.specs.Kinds.{level1_kind, with_place};
ghost use Rattle.pool.specs.Pool.{tally};
ghost use Rattle.pool.specs.Levels.{Holds, Good, Fresh, Taken, Given, Wrote, picked};

use super::block::{Block, IBlock, set_place};
use roll::Refusal;

/// The link that ends the chain of free blocks, 2^64 - 1. A number and no `Option`: a link stands in the first word of the
/// free block itself, in the lent memory, and the root is moved from and to there.
pub const NO_BLOCK: u64 = 0xffff_ffff_ffff_ffff;

/// A pool. Slot 0 is never taken and always empty; the other slots are held, stand on the chain of
/// free blocks, or have never been taken. The lent slice is all its memory, so free blocks are an arena of indices.
// `Good` is asked or kept by three functions and no ghost field: `put` writes any block into any slot.
#[derive(Drop)]
pub struct Level<'a, B> {
    blocks: &'a mut [B],
    root_empty_block: u64,
    empty_blocks_count: usize,
    fresh: usize,
}

/// The check before a pool is made: a slice with no element is refused.
pub fn check_blocks<B>(blocks: &[B]) -> Result<(), Refusal>
    ensures { outcome result ≡ (if nat_eq (length blocks.now) 0 then Refused 5 else Done) }
{
    if blocks.is_empty() {
        return Err(Refusal::NoElement);
    }
    Ok(())
}

// Takes free block i off the chain: its link is cleared, and is the answer.
fn pop_empty_block<B: IBlock>(blocks: &mut [B], i: usize) -> u64
    requires { i < length blocks.old }
    ensures next { (d : B) → result ≡ B.kind.link (slice_index_or blocks.old i d) }
    ensures cleared { (d : B) → blocks.new ≡ slice_set blocks.old i (B.kind.relink (slice_index_or blocks.old i d) 0) }
{
    let next = blocks[i].link();
    blocks[i].set_link(0);
    next
}

// Puts block i before the chain that begins at root.
fn push_empty_block<B: IBlock>(blocks: &mut [B], i: usize, root: u64)
    requires { i < length blocks.old }
    ensures { (d : B) → blocks.new ≡ slice_set blocks.old i (B.kind.relink (slice_index_or blocks.old i d) root) }
{
    blocks[i].set_link(root);
}

// Empties block i, whatever it held.
fn write_empty_block<B: IBlock>(blocks: &mut [B], i: usize)
    requires { i < length blocks.old }
    ensures { blocks.new ≡ slice_set blocks.old i B.kind.blank }
{
    blocks[i] = B::empty();
}

impl<'a, B: IBlock> Level<'a, B> {
    /// A pool with no slot held. Slot 0 is emptied and nothing else is written.
    pub fn new(blocks: &'a mut [B]) -> Level<'a, B>
        requires { 0 < length blocks.old }
        ensures written { result.blocks.now ≡ slice_set blocks.old 0 B.kind.blank }
        ensures fresh { Fresh B.kind result }
        ensures lent { result.blocks.ghost_name ≡ blocks.entry.ghost_name }
    {
        write_empty_block(blocks, 0);
        Level {
            blocks,
            root_empty_block: NO_BLOCK,
            empty_blocks_count: 0,
            fresh: 1,
        }
    }

    /// Takes a slot, which is empty; nothing where every slot beside slot 0 is held.
    pub fn insert_empty_block(&mut self) -> Option<usize>
        requires { Good B.kind self.old }
        ensures which { result ≡ picked self.old }
        ensures taken { Taken B.kind self.old self.new result }
        ensures good { Good B.kind self.new }
        ensures lent { self.new.blocks.ghost_name ≡ self.old.blocks.ghost_name }
    {
        if self.root_empty_block != NO_BLOCK {
            let i = self.root_empty_block as usize;
            self.root_empty_block = pop_empty_block(self.blocks, i);
            self.empty_blocks_count -= 1;
            return Some(i);
        }
        if self.fresh < self.blocks.len() {
            let i = self.fresh;
            write_empty_block(self.blocks, i);
            self.fresh += 1;
            return Some(i);
        }
        None
    }

    /// Frees a held slot whose block is empty once its link is zeroed.
    pub fn remove_empty_block(&mut self, i: usize)
        requires taken { (held : ℕ → Bool) × (Holds B.kind self.old held × (held i ≡ true)) }
        requires clean { B.kind.relink (slice_index_or self.old.blocks.now i B.kind.blank) 0 ≡ B.kind.blank }
        ensures given { Given B.kind self.old self.new i }
        ensures good { Good B.kind self.new }
        ensures lent { self.new.blocks.ghost_name ≡ self.old.blocks.ghost_name }
    {
        let root = self.root_empty_block;
        push_empty_block(self.blocks, i, root);
        self.root_empty_block = i as u64;
        self.empty_blocks_count += 1;
    }

    /// How many slots are held.
    pub fn held_blocks(&self) -> usize
        requires { Good B.kind self.now }
        ensures { (held : ℕ → Bool) → Holds B.kind self.now held → result ≡ tally held (length self.now.blocks.now) }
    {
        self.fresh - 1 - self.empty_blocks_count
    }

    /// How many slots there are, slot 0 too.
    pub fn size(&self) -> usize
        ensures { result ≡ length self.now.blocks.now }
    {
        self.blocks.len()
    }

    /// The block in slot i.
    pub fn at(&self, i: usize) -> &B
        requires { i < length self.now.blocks.now }
        ensures { result.now ≡ slice_index_or self.now.blocks.now i B.kind.blank }
    {
        let s = &*self.blocks; // in one step the borrow checker does not cover it yet
        &s[i]
    }

    /// Writes slot i.
    pub fn put(&mut self, i: usize, block: B)
        requires { i < length self.old.blocks.now }
        ensures wrote { Wrote self.old self.new i block }
        ensures lent { self.new.blocks.ghost_name ≡ self.old.blocks.ghost_name }
    {
        self.blocks[i] = block;
    }
}

impl<'a> Level<'a, Block> {
    /// Writes place k of the level-1 block in slot i, and the block's mask.
    pub fn put_place(&mut self, i: usize, k: usize, mask: u64, slot: u16)
        requires slot { i < length self.old.blocks.now }
        requires place { k < 64 }
        ensures wrote { Wrote self.old self.new i (with_place (slice_index_or self.old.blocks.now i level1_kind.blank) k mask slot) }
        ensures lent { self.new.blocks.ghost_name ≡ self.old.blocks.ghost_name }
    {
        set_place(&mut self.blocks[i], k, mask, slot);
    }
}
