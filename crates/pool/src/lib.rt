//! Blocks, and a pool of them over a slice that the caller lends.
#![tactic(auto)]

pub mod block;
pub mod level;
