//! Arrays of the rows of tables, laid out by hints, compacted or kept in their layout, and chunks
//! converted to another type.
#![tactic(auto)]

pub mod compact;
mod fits;
pub mod groups;
pub mod hint;
pub mod keep;
mod ranges;
pub mod retype_rows;
pub mod retyping;
pub mod rows;
