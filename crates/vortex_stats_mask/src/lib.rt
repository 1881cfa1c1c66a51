//! Comparisons and LIKE of whole columns, as masks with a byte for each row.
#![tactic(auto)]

pub mod column;
pub mod compare;
pub mod items;
pub mod laws;
mod literal;
pub mod masks;
pub mod matches;
pub mod narrow;
pub mod numbers;
pub mod pairs;
mod runs;
mod strings;
pub mod turned;
