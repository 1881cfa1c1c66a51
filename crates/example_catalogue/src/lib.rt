//! A catalogue of partitions by the statistics of a column in each. Those of a range of them don't
//! depend on the order in which they were added and merged, and are true of all their rows.
#![tactic(auto)]

pub mod catalogue;
pub mod error;
