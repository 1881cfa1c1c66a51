//! The rows of arrays that scans select, by their positions, and as values read column by column
//! and cut by their paths.
#![tactic(auto)]

mod column;
mod native;
mod push;
pub mod read;
pub mod rows;
pub mod select;
pub mod selection;
