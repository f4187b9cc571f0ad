//! Walks over any operand: block by block, and index by index, with seeks.
#![tactic(auto)]

pub mod block_iter;
pub mod index_iter;
