//! Chunks: arrays of rows with statistics of their leaf columns.
#![tactic(auto)]

pub mod bounds;
pub mod chunk;
mod kept;
pub mod retyped;
pub mod zones;
