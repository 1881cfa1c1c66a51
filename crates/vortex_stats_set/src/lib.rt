//! Sets of statistics of a column, each at most once, with their merges and intersections.
#![tactic(auto)]

mod combine;
mod merge;
pub mod stats_set;
pub mod typed;
mod valid;
