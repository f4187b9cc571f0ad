//! The calls of a list that read the set in other ways: walks over it, and piles of combinations that it stands in.
#![tactic(auto)]

pub mod pile_calls;
pub mod piles;
pub mod set_walks;
