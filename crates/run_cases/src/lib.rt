//! Worked cases of lists of calls, run.
#![tactic(auto)]

#[cfg(test)]
mod lists_tests;
