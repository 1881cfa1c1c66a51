//! Laws of merges and intersections of sets of statistics, and of unions of bounds.
#![tactic(auto)]

pub mod laws;
pub mod merges;
pub mod unions;
