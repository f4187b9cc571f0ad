//! Lists of calls: what a whole list answers and leaves, when a next call is refused for memory, and that
//! sets with the same members answer every further list alike.
#![tactic(auto)]

pub mod calls;
pub mod laws;
pub mod script;
