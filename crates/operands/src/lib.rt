//! Operands: what is read as one top word, 64 middle words and 64 * 64 data words, and combinations of them.
#![tactic(auto)]

pub mod apply;
pub mod bitset_interface;
mod refs;
