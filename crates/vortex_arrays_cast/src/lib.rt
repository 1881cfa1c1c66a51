//! Arrays as those of another type, column by column.
#![tactic(auto)]

pub mod cast;
mod dictionaries;
mod leaves;
mod lists;
mod low_bits;
mod names;
mod numbers;
pub mod ranges;
mod records;
