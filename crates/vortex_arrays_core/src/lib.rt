//! Arrays of any layout, and their slices, takes and filters.
#![tactic(auto)]

pub mod array;
pub mod filter;
mod gather;
pub mod make;
pub mod read;
pub mod scalar;
pub mod slice;
pub mod take;
pub mod validity;
